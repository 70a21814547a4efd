// Strings: the evaluator, and the two rules that evaluate further.
ghost use Rattle.std.specs.Prelude.{◌<◌, ◌≤◌};
ghost use Rattle.engine.specs.Ends.{Says, leaving};
ghost use Rattle.engine.specs.Values.{Text};
ghost use Rattle.rules.specs.declared.Refusal.TheVariants.{LongString};
ghost use Rattle.engine.specs.Lending.{Ready, String, OfKind, StrDone, StrRuled};
ghost use Rattle.words.specs.Words.{pace_of};

use crate::ends::{error, opened, refused, value};
use crate::values::{argument, text, variable};
use crate::{Lent, Made, instr};
use memory::Unit;
use rules::Refusal;
use sheet::reads::{kind, part};
use words::bounds::{no_hold, spent};
use words::feed::rest;
use words::moves::{caught, resumed, with_length};
use words::pace::{result, stepped, written};
use words::places::{append_caught, caught_length, charge, raise};
use words::{FeedNumber, PaceNumber, ScopeNumber};

// Begins a string record, whose bytes go behind the first n of the string in work of this hold level.
#[cycle(evaluators)]
pub fn string(
    lent: &Lent,
    work: &mut [u8],
    r: usize,
    scope: ScopeNumber,
    pace: PaceNumber,
    feed: FeedNumber,
    flag: bool,
    n: usize,
) -> usize
    requires ready { Ready lent.now work.old scope pace feed }
    requires string { (String lent.now r) × (n ≤ lent.now.unit.bytes) }
    ensures { StrDone lent.now work.old scope pace feed r flag n work.new result }
{
    if spent(pace, lent.limits) {
        return refused(Refusal::BudgetUsedUp, r);
    }
    charge(work, scope);
    let p = stepped(pace);
    let k = kind(lent.sheet, work, r);
    match k { // an arm a kind, as in `instr`
        1 => text(lent, work, r, scope, p, feed, flag, n),
        2 => variable(lent, work, r, scope, p, feed, flag, n),
        3 => argument(lent, work, r, scope, p, feed, flag, n),
        4 => embed(lent, work, r, scope, p, feed, flag, n),
        5 => join(lent, work, r, scope, p, feed, flag, n),
        _ => refused(Refusal::LongString, r), // never: no other kind is a string
    }
}

// The n bytes that a join or an embedded command made, unless they are too long for a string.
fn made_string(u: Unit, r: usize, n: usize, flag: bool, pace: PaceNumber, rest: usize) -> usize
    requires { (r < 512) × (rest < 2048) }
    ensures { (n < u.bytes → Says result (λ f. Text.Value n flag (leaving f (pace_of pace) rest))) × (u.bytes ≤ n → Says result (λ f. Text.Refused LongString r)) }
{
    if n >= u.bytes {
        return refused(Refusal::LongString, r);
    }
    value(n, flag, pace, rest)
}

// Join: left, then right; its length is judged when both are there.
#[cycle(evaluators)]
fn join(
    lent: &Lent,
    work: &mut [u8],
    r: usize,
    scope: ScopeNumber,
    pace: PaceNumber,
    feed: FeedNumber,
    flag: bool,
    n: usize,
) -> usize
    requires ready { Ready lent.now work.old scope pace feed }
    requires of_kind { (OfKind lent.now work.old r 5) × (n ≤ lent.now.unit.bytes) }
    ensures { StrRuled lent.now work.old scope pace feed r flag n work.new result }
{
    let a = part(lent.sheet, work, r, 4);
    let b = part(lent.sheet, work, r, 6);
    let left = string(lent, work, a, scope, pace, feed, flag, n);
    let Ok(first) = opened(left, feed) else {
        return left;
    };
    let Made::Value(l, between, p, q) = first else {
        return left;
    };
    let k = lent.unit.bytes.min(n + l);
    let right = string(lent, work, b, scope, p, q, between, k);
    let Ok(second) = opened(right, q) else {
        return right;
    };
    let Made::Value(m, last, s, f) = second else {
        return right;
    };
    made_string(lent.unit, r, l + m, last, s, rest(f))
}

// Embedded command: it has variables and a stream of its own, whose newlines at the end are no part of the value.
#[cycle(evaluators)]
fn embed(
    lent: &Lent,
    work: &mut [u8],
    r: usize,
    scope: ScopeNumber,
    pace: PaceNumber,
    feed: FeedNumber,
    flag: bool,
    n: usize,
) -> usize
    requires ready { Ready lent.now work.old scope pace feed }
    requires of_kind { (OfKind lent.now work.old r 4) × (n ≤ lent.now.unit.bytes) }
    ensures { StrRuled lent.now work.old scope pace feed r flag n work.new result }
{
    if no_hold(scope) {
        return refused(Refusal::ManyHolds, r);
    }
    let b = part(lent.sheet, work, r, 4);
    raise(work, lent.unit, scope);
    let fresh = with_length(pace, 0);
    let inner = match instr(lent, work, b, caught(scope), fresh, feed) {
        Ok(inner) => inner,
        Err(halt) => return refused(halt.why, halt.place),
    };
    let late = resumed(pace, inner.pace);
    let left = rest(inner.feed);
    if inner.behaviour.is_failure() {
        return error(late, left);
    }
    let all = written(inner.pace);
    let m = caught_length(work, lent.unit, scope, all);
    append_caught(work, lent.unit, scope, n, m);
    made_string(lent.unit, r, m, result(inner.pace), late, left)
}
