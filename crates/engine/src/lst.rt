// Lists: the evaluator, and the two rules that add fields. They are two functions of one shape: what they differ in
// would be a flag, with which a run of calls took 3.8 percent more instructions when it was tried, or a closure that holds work while `list` writes.
ghost use Rattle.std.specs.Prelude.{◌≤◌};
ghost use Rattle.engine.specs.Lending.{Ready, ListOf, OfKind, LstDone, LstRuled};

use crate::ends::{opened, refused, value};
use crate::txt::string;
use crate::{Lent, Made};
use rules::Refusal;
use sheet::reads::{kind, part};
use words::bounds::spent;
use words::feed::rest;
use words::pace::stepped;
use words::places::{charge, list_place, string_place};
use words::{FeedNumber, PaceNumber, ScopeNumber};

// Begins a list record, whose fields go behind the first m of the list of this hold level.
#[cycle(evaluators)]
pub fn list(
    lent: &Lent,
    work: &mut [u8],
    r: usize,
    scope: ScopeNumber,
    pace: PaceNumber,
    feed: FeedNumber,
    m: usize,
) -> usize
    requires ready { Ready lent.now work.old scope pace feed }
    requires list_of { (ListOf lent.now r) × (m ≤ 16) }
    ensures { LstDone lent.now work.old scope pace feed r m work.new result }
{
    if spent(pace, lent.limits) {
        return refused(Refusal::BudgetUsedUp, r);
    }
    charge(work, scope);
    let p = stepped(pace);
    let k = kind(lent.sheet, work, r);
    match k { // an arm a kind, as in `instr`
        6 => value(m, false, p, rest(feed)),
        7 => field(lent, work, r, scope, p, feed, m),
        8 => split(lent, work, r, scope, p, feed, m),
        _ => refused(Refusal::LongList, r), // never: no other kind is a list
    }
}

// Field: one string more.
#[cycle(evaluators)]
fn field(
    lent: &Lent,
    work: &mut [u8],
    r: usize,
    scope: ScopeNumber,
    pace: PaceNumber,
    feed: FeedNumber,
    m: usize,
) -> usize
    requires ready { Ready lent.now work.old scope pace feed }
    requires of_kind { (OfKind lent.now work.old r 7) × (m ≤ 16) }
    ensures { LstRuled lent.now work.old scope pace feed r m work.new result }
{
    let s = part(lent.sheet, work, r, 4);
    let next = part(lent.sheet, work, r, 6);
    let text = string(lent, work, s, scope, pace, feed, true, 0);
    let Ok(made) = opened(text, feed) else {
        return text;
    };
    let Made::Value(n, _, p, q) = made else {
        return text;
    };
    let a = list_place(lent.unit, scope);
    let from = string_place(lent.unit, scope);
    match memory::field(work, a, m, from, n, lent.unit) {
        Some(k) => list(lent, work, next, scope, p, q, k),
        None => refused(Refusal::LongList, r), // the field's record
    }
}

// Split: the pieces that blanks leave of the string, none of them empty.
#[cycle(evaluators)]
fn split(
    lent: &Lent,
    work: &mut [u8],
    r: usize,
    scope: ScopeNumber,
    pace: PaceNumber,
    feed: FeedNumber,
    m: usize,
) -> usize
    requires ready { Ready lent.now work.old scope pace feed }
    requires of_kind { (OfKind lent.now work.old r 8) × (m ≤ 16) }
    ensures { LstRuled lent.now work.old scope pace feed r m work.new result }
{
    let s = part(lent.sheet, work, r, 4);
    let next = part(lent.sheet, work, r, 6);
    let text = string(lent, work, s, scope, pace, feed, true, 0);
    let Ok(made) = opened(text, feed) else {
        return text;
    };
    let Made::Value(n, _, p, q) = made else {
        return text;
    };
    let a = list_place(lent.unit, scope);
    let from = string_place(lent.unit, scope);
    match memory::split(work, a, m, from, from + n, lent.unit) {
        Some(k) => list(lent, work, next, scope, p, q, k),
        None => refused(Refusal::LongList, r),
    }
}
