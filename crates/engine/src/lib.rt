// How a script is evaluated: an evaluator a sort (instructions, strings, lists), one function a rule, all calling each other.
#![tactic(auto)]

ghost use Rattle.std.specs.Prelude.{◌≡◌, true};
ghost use Rattle.engine.specs.Ends.{answered, loop_over};
ghost use Rattle.engine.specs.Lending.{Ready, Instruction, OfKind, InsDone, InsRuled};
ghost use Rattle.words.specs.Words.{course_of};
ghost use Rattle.engine.specs.Proved.{Proved};

mod ctx;
mod ends;
mod leaves;
mod lst;
pub mod start;
mod tool;
mod txt;
mod values;

use ctx::{call, nooutput, pipe, subshell, walk};
use ends::{ended, halted, opened};
use leaves::{export, leave, settled, shift};
use memory::{Course, Unit};
use rules::{Behaviour, Halt, Refusal};
use sheet::reads::{kind, mark, part};
use tool::utility;
use txt::string;
use words::bounds::{runs_body, spent};
use words::limits::loops;
use words::moves::{tested, with_result};
use words::pace::{result, stepped};
use words::places::{charge, string_place, variables_place};
use words::{FeedNumber, LimitsNumber, PaceNumber, ScopeNumber};

// What a run lends to every evaluation: the sheet and the standard input, the limits, and how many bytes a text takes. Work, scope, pace and feed
// stay beside it: work is written between two reads, and the others are numbers, which in a struct would go through memory.
#[derive(Clone, Copy)]
pub struct Lent<'a> {
    pub sheet: &'a [u8],
    pub stdin: &'a [u8],
    pub limits: LimitsNumber,
    pub unit: Unit,
}

// What a run comes to that is not refused.
#[derive(Clone, Copy)]
pub struct Ended {
    pub behaviour: Behaviour,
    pub course: Course,
}

// What an instruction comes to that is not refused: a behaviour, and the pace and the feed that it leaves.
#[derive(Clone, Copy)]
pub struct Ending {
    pub behaviour: Behaviour,
    pub pace: PaceNumber,
    pub feed: FeedNumber,
}

// What a string or a list comes to that is not refused, with the pace and the feed that it leaves: how many bytes or fields of it stand in work
// memory, and a string's flag; or an error. It is opened from a number where it is matched on (`ends::opened`).
#[derive(Clone, Copy)]
pub enum Made {
    Value(usize, bool, PaceNumber, FeedNumber),
    Error(PaceNumber, FeedNumber),
}

// Begins an instruction record: a step, if the budget has one left, then its rule. The kinds are the format's numbers, an arm a kind: an enum of
// them would be made here and matched on at once. Strings and lists begin with the same four calls, but answer in another type.
#[cycle(evaluators)]
fn instr(
    lent: &Lent,
    work: &mut [u8],
    r: usize,
    scope: ScopeNumber,
    pace: PaceNumber,
    feed: FeedNumber,
) -> Result<Ending, Halt>
    requires ready { Ready lent.now work.old scope pace feed }
    requires instruction { Instruction lent.now r }
    ensures { InsDone lent.now work.old scope pace feed r work.new result }
{
    if spent(pace, lent.limits) {
        return halted(Refusal::BudgetUsedUp, r);
    }
    charge(work, scope);
    let p = stepped(pace);
    let k = kind(lent.sheet, work, r);
    match k {
        16 => assign(lent, work, r, scope, p, feed),
        17 => export(lent, work, r, scope, p, feed),
        18 => sequence(lent, work, r, scope, p, feed),
        19 => subshell(lent, work, r, scope, p, feed),
        20 => negate(lent, work, r, scope, p, feed),
        21 => branch(lent, work, r, scope, p, feed),
        22 => nooutput(lent, work, r, scope, p, feed),
        23 => pipe(lent, work, r, scope, p, feed),
        24 => utility(lent, work, r, scope, p, feed),
        25 => call(lent, work, r, scope, p, feed),
        26 => walk(lent, work, r, scope, p, feed),
        27 => repeat(lent, work, r, scope, p, feed),
        28 => leave(lent, work, r, scope, p, feed, Behaviour::Exit),
        29 => leave(lent, work, r, scope, p, feed, Behaviour::Return),
        30 => shift(lent, work, r, scope, p, feed),
        _ => halted(Refusal::BudgetUsedUp, r), // never: no other kind is an instruction
    }
}

// Assign: the value, standing in work memory, becomes the variable's.
#[cycle(evaluators)]
fn assign(
    lent: &Lent,
    work: &mut [u8],
    r: usize,
    scope: ScopeNumber,
    pace: PaceNumber,
    feed: FeedNumber,
) -> Result<Ending, Halt>
    requires ready { Ready lent.now work.old scope pace feed }
    requires of_kind { OfKind lent.now work.old r 16 }
    ensures { InsRuled lent.now work.old scope pace feed r work.new result }
{
    let x = mark(work, r);
    let v = part(lent.sheet, work, r, 6);
    let value = string(lent, work, v, scope, pace, feed, true, 0);
    match opened(value, feed)? {
        Made::Value(n, flag, p, q) => {
            let from = string_place(lent.unit, scope);
            let a = variables_place(lent.unit, scope);
            memory::assign(work, a, x, from, n, lent.unit);
            settled(scope, p, q, flag)
        }
        Made::Error(p, q) => ended(Behaviour::Failure, p, q),
    }
}

// Sequence: one after the other, as long as they are Normal.
#[cycle(evaluators)]
fn sequence(
    lent: &Lent,
    work: &mut [u8],
    r: usize,
    scope: ScopeNumber,
    pace: PaceNumber,
    feed: FeedNumber,
) -> Result<Ending, Halt>
    requires ready { Ready lent.now work.old scope pace feed }
    requires of_kind { OfKind lent.now work.old r 18 }
    ensures { InsRuled lent.now work.old scope pace feed r work.new result }
{
    let a = part(lent.sheet, work, r, 4);
    let b = part(lent.sheet, work, r, 6);
    let first = instr(lent, work, a, scope, pace, feed)?;
    if !first.behaviour.is_normal() {
        return Ok(first);
    }
    instr(lent, work, b, scope, first.pace, first.feed)
}

// Not: the result of a Normal end is turned round.
#[cycle(evaluators)]
fn negate(
    lent: &Lent,
    work: &mut [u8],
    r: usize,
    scope: ScopeNumber,
    pace: PaceNumber,
    feed: FeedNumber,
) -> Result<Ending, Halt>
    requires ready { Ready lent.now work.old scope pace feed }
    requires of_kind { OfKind lent.now work.old r 20 }
    ensures { InsRuled lent.now work.old scope pace feed r work.new result }
{
    let a = part(lent.sheet, work, r, 4);
    let body = instr(lent, work, a, tested(scope), pace, feed)?;
    if !body.behaviour.is_normal() {
        return Ok(body);
    }
    let turned = with_result(body.pace, !result(body.pace));
    ended(Behaviour::Normal, turned, body.feed)
}

// If: the test under a condition, then one of the branches under none of its own.
#[cycle(evaluators)]
fn branch(
    lent: &Lent,
    work: &mut [u8],
    r: usize,
    scope: ScopeNumber,
    pace: PaceNumber,
    feed: FeedNumber,
) -> Result<Ending, Halt>
    requires ready { Ready lent.now work.old scope pace feed }
    requires of_kind { OfKind lent.now work.old r 21 }
    ensures { InsRuled lent.now work.old scope pace feed r work.new result }
{
    let a = part(lent.sheet, work, r, 4);
    let yes = part(lent.sheet, work, r, 6);
    let no = part(lent.sheet, work, r, 8);
    let test = instr(lent, work, a, tested(scope), pace, feed)?;
    if !test.behaviour.is_normal() {
        return Ok(test);
    }
    let taken = if result(test.pace) { yes } else { no };
    instr(lent, work, taken, scope, test.pace, test.feed)
}

// What a while comes to where it runs its body no more: Failure at the loop limit, else Normal, with the flag as result.
fn loop_over(pace: PaceNumber, feed: FeedNumber, flag: bool) -> Result<Ending, Halt>
    ensures { answered result ≡ loop_over (course_of pace feed) flag }
{
    if result(pace) {
        return ended(Behaviour::Failure, pace, feed);
    }
    ended(Behaviour::Normal, with_result(pace, flag), feed)
}

// While: test and body in turn. What is left of the loop limit is counted down by hand: the loop is over where a test says so, not where it is 0.
#[cycle(evaluators)]
fn repeat(
    lent: &Lent,
    work: &mut [u8],
    r: usize,
    scope: ScopeNumber,
    mut pace: PaceNumber,
    mut feed: FeedNumber,
) -> Result<Ending, Halt>
    requires ready { Ready lent.now work.old scope pace feed }
    requires of_kind { OfKind lent.now work.old r 27 }
    ensures { InsRuled lent.now work.old scope pace feed r work.new result }
{
    let a = part(lent.sheet, work, r, 4);
    let b = part(lent.sheet, work, r, 6);
    let mut left = loops(lent.limits);
    let mut flag = true;
    loop {
        let test = instr(lent, work, a, tested(scope), pace, feed)?;
        if !test.behaviour.is_normal() {
            return Ok(test);
        }
        if !runs_body(test.pace, left) {
            return loop_over(test.pace, test.feed, flag);
        }
        let body = instr(lent, work, b, scope, test.pace, test.feed)?;
        if !body.behaviour.is_normal() {
            return Ok(body);
        }
        pace = body.pace;
        feed = body.feed;
        flag = result(pace);
        left -= 1;
    }
}

// What the specs claim is true: the contract asks for every proof, so none can be lost unnoticed.
fn claims_hold() -> bool
    ensures { (result ≡ true) × Proved }
{
    true
}
