// Utilities: their list, then what each does with its fields.
ghost use Rattle.std.specs.Prelude.{◌≡◌};
ghost use Rattle.rules.specs.Words.{utility_of, Utility};
ghost use Rattle.engine.specs.Ends as ends;
ghost use Rattle.engine.specs.Ends.{answered};
ghost use Rattle.engine.specs.Lending.{Ready, OfKind, InsRuled, Acts, Acted};
ghost use Rattle.words.specs.Words.{scope_of, course_of};

use crate::ends::{ended, halted, opened};
use crate::leaves::settled;
use crate::lst::list;
use crate::{Ending, Lent, Made};
use rules::{Behaviour, Halt, Refusal};
use sheet::reads::{part, start};
use words::feed::{from, rest};
use words::limits::slots;
use words::moves::{emptied, with_length};
use words::pace::written;
use words::places::{list_place, stream_place, variables_place};
use words::scope::{dropped, piped};
use words::{FeedNumber, PaceNumber, ScopeNumber};

// The utilities that are known.
#[derive(Clone, Copy)]
pub enum Tool {
    True,
    False,
    Echo,
    Test,
    Cat,
    Env,
    Other,
}

// Which utility has this name.
fn which(name: &[u8]) -> Tool
    ensures { ends.to_utility result ≡ utility_of name.now }
{
    match name {
        b"true" => Tool::True,
        b"false" => Tool::False,
        b"echo" => Tool::Echo,
        b"test" => Tool::Test,
        b"cat" => Tool::Cat,
        b"env" => Tool::Env,
        _ => Tool::Other,
    }
}

// Utility: its list, then the utility of its name.
#[cycle(evaluators)]
pub fn utility(
    lent: &Lent,
    work: &mut [u8],
    r: usize,
    scope: ScopeNumber,
    pace: PaceNumber,
    feed: FeedNumber,
) -> Result<Ending, Halt>
    requires ready { Ready lent.now work.old scope pace feed }
    requires of_kind { OfKind lent.now work.old r 24 }
    ensures { InsRuled lent.now work.old scope pace feed r work.new result }
{
    let name = part(lent.sheet, work, r, 4);
    let l = part(lent.sheet, work, r, 6);
    let at = start(work, name) + 4;
    let end = at + part(lent.sheet, work, name, 0);
    let tool = which(&lent.sheet[at..end]);
    let fields = list(lent, work, l, scope, pace, feed, 0);
    match opened(fields, feed)? {
        Made::Value(m, _, p, q) => act(lent, work, r, scope, p, q, tool, m),
        Made::Error(p, q) => ended(Behaviour::Failure, p, q),
    }
}

// What a utility does with the m fields of the list of this hold level.
fn act(
    lent: &Lent,
    work: &mut [u8],
    r: usize,
    scope: ScopeNumber,
    pace: PaceNumber,
    feed: FeedNumber,
    tool: Tool,
    m: usize,
) -> Result<Ending, Halt>
    requires { Acts lent.now work.old scope pace feed r m }
    ensures { Acted lent.now work.old scope pace feed r (ends.to_utility tool) m work.new result }
{
    match tool { // and no table of closures: each would hold work by &mut
        Tool::True => settled(scope, pace, feed, true),
        Tool::False => settled(scope, pace, feed, false),
        Tool::Echo => echo(lent, work, r, scope, pace, feed, m),
        Tool::Test => test(lent, work, r, scope, pace, feed, m),
        Tool::Cat => cat(lent, work, r, scope, pace, feed, m),
        Tool::Env => env(lent, work, r, scope, pace, feed, m),
        Tool::Other => settled(scope, pace, feed, false),
    }
}

// What was written counts, unless there is too much of it.
fn wrote(
    scope: ScopeNumber,
    pace: PaceNumber,
    feed: FeedNumber,
    r: usize,
    size: Option<usize>,
) -> Result<Ending, Halt>
    requires { ends.Measured size }
    ensures { answered result ≡ ends.wrote_of (scope_of scope) (course_of pace feed) r size }
{
    match size {
        Some(n) => settled(scope, with_length(pace, n), feed, true),
        None => halted(Refusal::LongStream, r),
    }
}

// echo: the fields as a line, a blank between each two.
fn echo(
    lent: &Lent,
    work: &mut [u8],
    r: usize,
    scope: ScopeNumber,
    pace: PaceNumber,
    feed: FeedNumber,
    m: usize,
) -> Result<Ending, Halt>
    requires { Acts lent.now work.old scope pace feed r m }
    ensures { Acted lent.now work.old scope pace feed r Utility.Echo m work.new result }
{
    if dropped(scope) {
        return settled(scope, pace, feed, true);
    }
    let to = stream_place(lent.unit, scope);
    let a = list_place(lent.unit, scope);
    let made = memory::echo(work, to, written(pace), a, m, lent.unit);
    wrote(scope, pace, feed, r, made)
}

// test: whether the fields compare two equal texts, or ask with -n for one that is not empty.
fn test(
    lent: &Lent,
    work: &[u8],
    r: usize,
    scope: ScopeNumber,
    pace: PaceNumber,
    feed: FeedNumber,
    m: usize,
) -> Result<Ending, Halt>
    requires { Acts lent.now work.now scope pace feed r m }
    ensures { Acted lent.now work.now scope pace feed r Utility.Test m work.now result }
{
    let a = list_place(lent.unit, scope);
    settled(scope, pace, feed, memory::test(work, a, m, lent.unit))
}

// cat: without fields the rest of the input.
fn cat(
    lent: &Lent,
    work: &mut [u8],
    r: usize,
    scope: ScopeNumber,
    pace: PaceNumber,
    feed: FeedNumber,
    m: usize,
) -> Result<Ending, Halt>
    requires { Acts lent.now work.old scope pace feed r m }
    ensures { Acted lent.now work.old scope pace feed r Utility.Cat m work.new result }
{
    if m > 0 {
        return settled(scope, pace, feed, false);
    }
    let drained = emptied(feed);
    if dropped(scope) {
        return settled(scope, pace, drained, true);
    }
    let to = stream_place(lent.unit, scope);
    let at = from(feed);
    let size = rest(feed);
    let n = written(pace);
    let made = if piped(scope) {
        memory::stream_within(work, to, n, at, size)
    } else {
        memory::stream_in(work, to, n, &lent.stdin[at..at + size])
    };
    wrote(scope, pace, drained, r, made)
}

// env: without fields a line for each set and exported variable.
fn env(
    lent: &Lent,
    work: &mut [u8],
    r: usize,
    scope: ScopeNumber,
    pace: PaceNumber,
    feed: FeedNumber,
    m: usize,
) -> Result<Ending, Halt>
    requires { Acts lent.now work.old scope pace feed r m }
    ensures { Acted lent.now work.old scope pace feed r Utility.Env m work.new result }
{
    if m > 0 {
        return settled(scope, pace, feed, false);
    }
    if dropped(scope) {
        return settled(scope, pace, feed, true);
    }
    let to = stream_place(lent.unit, scope);
    let level = variables_place(lent.unit, scope);
    let known = slots(lent.limits);
    let made = memory::env(work, to, written(pace), level, known, lent.unit);
    wrote(scope, pace, feed, r, made)
}
