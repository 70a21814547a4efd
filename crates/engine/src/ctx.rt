// The rules that open a hold: subshell, nooutput, pipe, call, for.
ghost use Rattle.engine.specs.Lending.{Ready, OfKind, InsRuled, Into, Enters, Entered, Iterates, Iterated, Piped};

use crate::ends::{ended, halted, opened};
use crate::leaves::{settled, unless_failed};
use crate::lst::list;
use crate::{Ending, Lent, Made, instr};
use rules::{Behaviour, Halt, Refusal};
use sheet::reads::{body, mark, part};
use words::bounds::{no_call, no_hold};
use words::moves::{
    apart, caught, fed, fed_by, held, kept_arguments, resumed, silent, with_arguments, with_length,
    with_result, within,
};
use words::pace::{result, used, written};
use words::places::{begin_call, end_call, list_place, next_stream_place, raise, variables_place};
use words::{FeedNumber, PaceNumber, ScopeNumber};

// Subshell: variables of its own, so that nothing has to be put back.
#[cycle(evaluators)]
pub fn subshell(
    lent: &Lent,
    work: &mut [u8],
    r: usize,
    scope: ScopeNumber,
    pace: PaceNumber,
    feed: FeedNumber,
) -> Result<Ending, Halt>
    requires ready { Ready lent.now work.old scope pace feed }
    requires of_kind { OfKind lent.now work.old r 19 }
    ensures { InsRuled lent.now work.old scope pace feed r work.new result }
{
    if no_hold(scope) {
        return halted(Refusal::ManyHolds, r);
    }
    let a = part(lent.sheet, work, r, 4);
    raise(work, lent.unit, scope);
    let inner = instr(lent, work, a, apart(scope), pace, feed)?;
    let back = kept_arguments(feed, inner.feed);
    unless_failed(scope, inner.behaviour, inner.pace, back)
}

// Nooutput: what is written to the stream around it is dropped.
#[cycle(evaluators)]
pub fn nooutput(
    lent: &Lent,
    work: &mut [u8],
    r: usize,
    scope: ScopeNumber,
    pace: PaceNumber,
    feed: FeedNumber,
) -> Result<Ending, Halt>
    requires ready { Ready lent.now work.old scope pace feed }
    requires of_kind { OfKind lent.now work.old r 22 }
    ensures { InsRuled lent.now work.old scope pace feed r work.new result }
{
    if no_hold(scope) {
        return halted(Refusal::ManyHolds, r);
    }
    let a = part(lent.sheet, work, r, 4);
    let inner = instr(lent, work, a, silent(scope), pace, feed)?;
    let quiet = with_length(inner.pace, written(pace));
    ended(inner.behaviour, quiet, inner.feed)
}

// Pipe: the first side, into a stream of its own; `into` goes on, unless that was Failure.
#[cycle(evaluators)]
pub fn pipe(
    lent: &Lent,
    work: &mut [u8],
    r: usize,
    scope: ScopeNumber,
    pace: PaceNumber,
    feed: FeedNumber,
) -> Result<Ending, Halt>
    requires ready { Ready lent.now work.old scope pace feed }
    requires of_kind { OfKind lent.now work.old r 23 }
    ensures { InsRuled lent.now work.old scope pace feed r work.new result }
{
    if no_hold(scope) {
        return halted(Refusal::ManyHolds, r);
    }
    let a = part(lent.sheet, work, r, 4);
    let b = part(lent.sheet, work, r, 6);
    raise(work, lent.unit, scope);
    let fresh = with_length(pace, 0);
    let first = instr(lent, work, a, caught(scope), fresh, feed)?;
    let late = resumed(pace, first.pace);
    let back = kept_arguments(feed, first.feed);
    if first.behaviour.is_failure() {
        return ended(Behaviour::Failure, late, back);
    }
    let n = written(first.pace);
    into(lent, work, b, scope, late, back, n)
}

// The pipe's second side: it reads the n bytes of the stream that the first side wrote, from the variables of the pipe's own scope.
#[cycle(evaluators)]
fn into(
    lent: &Lent,
    work: &mut [u8],
    b: usize,
    scope: ScopeNumber,
    pace: PaceNumber,
    feed: FeedNumber,
    n: usize,
) -> Result<Ending, Halt>
    requires ready { Ready lent.now work.old scope pace feed }
    requires into { Into lent.now scope b n }
    ensures { Piped lent.now work.old scope pace feed b n work.new result }
{
    raise(work, lent.unit, scope); // over what the first side left
    let from = next_stream_place(lent.unit, scope);
    let piped = fed_by(feed, from, n);
    let second = instr(lent, work, b, fed(scope), pace, piped)?;
    unless_failed(scope, second.behaviour, second.pace, feed)
}

// Call: its list, an unknown name, the stack limit, the hold, in this order.
#[cycle(evaluators)]
pub fn call(
    lent: &Lent,
    work: &mut [u8],
    r: usize,
    scope: ScopeNumber,
    pace: PaceNumber,
    feed: FeedNumber,
) -> Result<Ending, Halt>
    requires ready { Ready lent.now work.old scope pace feed }
    requires of_kind { OfKind lent.now work.old r 25 }
    ensures { InsRuled lent.now work.old scope pace feed r work.new result }
{
    let l = part(lent.sheet, work, r, 6);
    let f = mark(work, r);
    let fields = list(lent, work, l, scope, pace, feed, 0); // by the caller
    match opened(fields, feed)? {
        Made::Value(m, _, p, q) => {
            if f == 0 {
                return settled(scope, p, q, false);
            }
            if no_call(scope, lent.limits) {
                return ended(Behaviour::Failure, p, q);
            }
            if no_hold(scope) {
                return halted(Refusal::ManyHolds, r);
            }
            enter(lent, work, r, scope, p, q, f, m)
        }
        Made::Error(p, q) => ended(Behaviour::Failure, p, q),
    }
}

// The body of function f, with the m fields of the list of this hold level as its arguments.
#[cycle(evaluators)]
fn enter(
    lent: &Lent,
    work: &mut [u8],
    r: usize,
    scope: ScopeNumber,
    pace: PaceNumber,
    feed: FeedNumber,
    f: usize,
    m: usize,
) -> Result<Ending, Halt>
    requires ready { Ready lent.now work.old scope pace feed }
    requires enters { Enters lent.now scope f m }
    ensures { Entered lent.now work.old scope pace feed r f m work.new result }
{
    let b = body(work, f);
    let counted = begin_call(work, scope, f);
    let a = list_place(lent.unit, scope);
    let own = with_arguments(feed, a, m);
    let inside = within(scope, f);
    let inner = instr(lent, work, b, inside, pace, own)?;
    end_call(work, scope, f, counted, used(inner.pace) - used(pace));
    let back = kept_arguments(feed, inner.feed);
    ended(inner.behaviour.returned(), inner.pace, back)
}

// For: its list, then the hold, also where there is no field.
#[cycle(evaluators)]
pub fn walk(
    lent: &Lent,
    work: &mut [u8],
    r: usize,
    scope: ScopeNumber,
    pace: PaceNumber,
    feed: FeedNumber,
) -> Result<Ending, Halt>
    requires ready { Ready lent.now work.old scope pace feed }
    requires of_kind { OfKind lent.now work.old r 26 }
    ensures { InsRuled lent.now work.old scope pace feed r work.new result }
{
    let x = mark(work, r);
    let l = part(lent.sheet, work, r, 6);
    let b = part(lent.sheet, work, r, 8);
    let fields = list(lent, work, l, scope, pace, feed, 0);
    match opened(fields, feed)? {
        Made::Value(m, _, p, q) => {
            if no_hold(scope) {
                return halted(Refusal::ManyHolds, r);
            }
            each(lent, work, b, scope, p, q, x, m)
        }
        Made::Error(p, q) => ended(Behaviour::Failure, p, q),
    }
}

// The body once for each of the m fields of the list of this hold level.
#[cycle(evaluators)]
fn each(
    lent: &Lent,
    work: &mut [u8],
    b: usize,
    scope: ScopeNumber,
    mut pace: PaceNumber,
    mut feed: FeedNumber,
    x: usize,
    m: usize,
) -> Result<Ending, Halt>
    requires ready { Ready lent.now work.old scope pace feed }
    requires iterates { Iterates lent.now scope x b m }
    ensures { Iterated lent.now work.old scope pace feed x b m work.new result }
{
    let level = variables_place(lent.unit, scope);
    let a = list_place(lent.unit, scope);
    let mut flag = true;
    for i in 0..m {
        memory::assign_text(work, level, x, a + lent.unit.bytes * i, lent.unit);
        let turn = instr(lent, work, b, held(scope), pace, feed)?;
        if !turn.behaviour.is_normal() {
            return Ok(turn);
        }
        pace = turn.pace;
        feed = turn.feed;
        flag = result(pace);
    }
    ended(Behaviour::Normal, with_result(pace, flag), feed)
}
