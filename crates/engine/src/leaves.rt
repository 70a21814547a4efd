// The rules that evaluate nothing further: export, exit and return, shift; and how a rule ends.
ghost use Rattle.std.specs.Prelude.{◌≡◌};
ghost use Rattle.engine.specs.Ends as ends;
ghost use Rattle.engine.specs.Ends.{answered};
ghost use Rattle.engine.specs.Lending.{Ready, OfKind, Leaves, InsRuled};
ghost use Rattle.words.specs.Words.{scope_of, course_of, pace_of};

use crate::ends::ended;
use crate::{Ending, Lent};
use rules::{Behaviour, Halt};
use sheet::reads::{mark, part};
use words::feed::{arguments, count};
use words::moves::{with_arguments, with_result};
use words::pace::result;
use words::places::variables_place;
use words::scope::condition;
use words::{FeedNumber, PaceNumber, ScopeNumber};

// Settle: a false result outside every condition is Exit, everything else Normal.
fn settle(condition: bool, res: bool) -> Behaviour
    ensures { result ≡ ends.settled condition res }
{
    if res || condition {
        Behaviour::Normal
    } else {
        Behaviour::Exit
    }
}

// A result, then Settle.
pub fn settled(
    scope: ScopeNumber,
    pace: PaceNumber,
    feed: FeedNumber,
    res: bool,
) -> Result<Ending, Halt>
    ensures { answered result ≡ ends.finished (scope_of scope) (course_of pace feed) res }
{
    ended(settle(condition(scope), res), with_result(pace, res), feed)
}

// Failure stays, else Settle with the result that there is.
pub fn unless_failed(
    scope: ScopeNumber,
    behaviour: Behaviour,
    pace: PaceNumber,
    feed: FeedNumber,
) -> Result<Ending, Halt>
    ensures { answered result ≡ ends.finished_unless_failure (scope_of scope) behaviour (course_of pace feed) }
{
    if behaviour.is_failure() {
        return ended(behaviour, pace, feed);
    }
    settled(scope, pace, feed, result(pace))
}

// Export: the mark is set, even if the variable is not.
pub fn export(
    lent: &Lent,
    work: &mut [u8],
    r: usize,
    scope: ScopeNumber,
    pace: PaceNumber,
    feed: FeedNumber,
) -> Result<Ending, Halt>
    requires ready { Ready lent.now work.old scope pace feed }
    requires of_kind { OfKind lent.now work.old r 17 }
    ensures { InsRuled lent.now work.old scope pace feed r work.new result }
{
    let x = mark(work, r);
    let a = variables_place(lent.unit, scope);
    memory::mark(work, a, x, lent.unit);
    ended(Behaviour::Normal, with_result(pace, true), feed)
}

// The pace with the result that a code sets or keeps.
fn coded(pace: PaceNumber, code: usize) -> PaceNumber
    ensures { pace_of result ≡ ends.coded_pace (pace_of pace) code }
{
    match code {
        0 => with_result(pace, true),
        1 => with_result(pace, false),
        _ => pace,
    }
}

// Exit and return: the result that the code sets or keeps, and the behaviour of the record's kind.
pub fn leave(
    lent: &Lent,
    work: &mut [u8],
    r: usize,
    scope: ScopeNumber,
    pace: PaceNumber,
    feed: FeedNumber,
    behaviour: Behaviour,
) -> Result<Ending, Halt>
    requires ready { Ready lent.now work.old scope pace feed }
    requires leaves { Leaves lent.now work.old r behaviour }
    ensures { InsRuled lent.now work.old scope pace feed r work.new result }
{
    let code = part(lent.sheet, work, r, 4);
    ended(behaviour, coded(pace, code), feed)
}

// Shift: the arguments begin further on, if there are enough.
pub fn shift(
    lent: &Lent,
    work: &mut [u8],
    r: usize,
    scope: ScopeNumber,
    pace: PaceNumber,
    feed: FeedNumber,
) -> Result<Ending, Halt>
    requires ready { Ready lent.now work.old scope pace feed }
    requires of_kind { OfKind lent.now work.old r 30 }
    ensures { InsRuled lent.now work.old scope pace feed r work.new result }
{
    let n = part(lent.sheet, work, r, 4);
    let had = count(feed);
    if n > had {
        return settled(scope, pace, feed, false);
    }
    let further = with_arguments(feed, arguments(feed) + lent.unit.bytes * n, had - n);
    settled(scope, pace, further, true)
}
