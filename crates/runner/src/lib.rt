// One run, from lent bytes to an answer.
#![tactic(auto)]

ghost use Rattle.std.specs.Prelude.{◌≡◌, true, ◌||◌, ltb, eqb};
ghost use Rattle.runner.specs.Promise.{Promise, inputs, refusal_number, refusal_place};
ghost use Rattle.runner.specs.Stages.{Cleared, Sheeted, Prepared, Inner, ruling_in, trace_in, Rendered};
ghost use Rattle.runner.specs.Proved.{Proved};
ghost use Rattle.runner.specs.declared.Refused.TheVariants as why;

pub mod drawing;

pub use drawing::{Drawn, graph};
use memory::{Given, Unit};
use rules::Halt;
use rules::limits::{
    Limits, MOST_BUDGET, MOST_LOOPS, MOST_STACK, RESULT_BYTES, STREAM_BYTES, STRING_BYTES,
    WORK_BYTES,
};

// What a string takes in work memory: its length and its bytes.
const UNIT: Unit = Unit {
    bytes: STRING_BYTES + 1,
};

// Why a run is refused: a memory's size, a limit, the sheet, the arguments, or a limit that was met midway.
#[derive(Clone, Copy, Debug, PartialEq, Eq)]
pub enum Refused {
    Sizes,
    File,
    Limits,
    Sheet(sheet::Refused),
    Arguments,
    Midway(Halt),
}

impl Refused {
    // Its number.
    pub fn number(self) -> u32
        ensures { result ≡ refusal_number self }
    {
        match self {
            Refused::Sizes => 1,
            Refused::Limits => 2,
            Refused::Sheet(of) => of.why.into(),
            Refused::Arguments => 5,
            Refused::Midway(halt) => halt.why.into(),
            Refused::File => 14,
        }
    }

    // The record that it names; 0 where it names none.
    pub fn place(self) -> usize
        ensures { result ≡ refusal_place self }
    {
        match self {
            Refused::Sheet(of) => of.place,
            Refused::Midway(halt) => halt.place,
            Refused::Sizes | Refused::File | Refused::Limits | Refused::Arguments => 0,
        }
    }
}

// A sheet that is refused refuses the run.
impl From<sheet::Refused> for Refused {
    ghost from_gives = { λ of r. r ≡ why.Sheet of };

    fn from(refused: sheet::Refused) -> Refused {
        Refused::Sheet(refused)
    }
}

// So does a limit that was met midway.
impl From<Halt> for Refused {
    ghost from_gives = { λ halt r. r ≡ why.Midway halt };

    fn from(midway: Halt) -> Refused {
        Refused::Midway(midway)
    }
}

// What an ended run hands on: the length of its result sheet, and how many functions its sheet has.
#[derive(Clone, Copy)]
struct Done {
    length: usize,
    functions: usize,
}

// Runs a sheet with arguments and standard input under the limits named. They stay arguments of their own: a struct of what is asked would be made
// here by each caller and taken apart at once. `res` begins with the result sheet afterwards, of the length
// that is returned.
pub fn run(
    sheet: &[u8],
    arguments: &[u8],
    input: &[u8],
    limits: Limits,
    res: &mut [u8],
    work: &mut [u8],
) -> Result<usize, Refused>
    ensures { Promise (inputs sheet.now arguments.now input.now limits.loops limits.stack limits.budget res.old work.old) res.old work.old res.new work.new result }
{
    if res.len() < RESULT_BYTES || work.len() != WORK_BYTES {
        return Err(Refused::Sizes);
    }
    memory::clear(work); // what it held does not count
    let done = limited(sheet, arguments, input, limits, res, work);
    memory::clear(work); // nothing of the run is left
    Ok(done?.length)
}

// From here on the sizes are right and the work memory is cleared: the limits, then the sheet.
fn limited(
    sheet: &[u8],
    arguments: &[u8],
    input: &[u8],
    limits: Limits,
    res: &mut [u8],
    work: &mut [u8],
) -> Result<Done, Refused>
    requires { Cleared res.old work.old }
    ensures { Inner (inputs sheet.now arguments.now input.now limits.loops limits.stack limits.budget res.old work.old) res.old res.new work.new result }
{
    if wrong_limits(limits, input.len()) {
        return Err(Refused::Limits);
    }
    let found = sheet::check(sheet, work)?;
    let given = Given {
        loops: limits.loops as usize,
        stack: limits.stack as usize,
        budget: limits.budget as usize,
        unit: UNIT.bytes,
        slots: found.slots,
    };
    checked(sheet, arguments, input, given, found.functions, res, work)
}

// Whether a limit or the input is out of range.
fn wrong_limits(limits: Limits, size: usize) -> bool
    ensures { result ≡ (ltb 65535 limits.loops || (ltb 10 limits.stack || (eqb limits.budget 0 || (ltb 1000000 limits.budget || ltb 1024 size)))) }
{
    limits.loops > MOST_LOOPS
        || limits.stack > MOST_STACK
        || limits.budget == 0
        || limits.budget > MOST_BUDGET
        || size > STREAM_BYTES
}

// The sheet is accepted and its tables are in work memory: the arguments.
fn checked(
    sheet: &[u8],
    arguments: &[u8],
    input: &[u8],
    given: Given,
    functions: usize,
    res: &mut [u8],
    work: &mut [u8],
) -> Result<Done, Refused>
    requires { Sheeted sheet.now input.now res.old work.old given functions }
    ensures { Inner (inputs sheet.now arguments.now input.now given.loops given.stack given.budget res.old work.old) res.old res.new work.new result }
{
    let n = sheet::check_arguments(arguments).ok_or(Refused::Arguments)?;
    engine::start::take_arguments(arguments, work, UNIT, n);
    let length = ready(sheet, input, given, n - 1, functions, res, work)?;
    Ok(Done { length, functions })
}

// Everything is in work memory: the run itself. Returns the length of its result sheet.
fn ready(
    sheet: &[u8],
    input: &[u8],
    given: Given,
    n: usize,
    functions: usize,
    res: &mut [u8],
    work: &mut [u8],
) -> Result<usize, Refused>
    requires { Prepared sheet.now input.now res.old work.old given n functions }
    ensures { Rendered (ruling_in sheet.now input.now work.old given n) sheet.now (trace_in sheet.now input.now work.old given n) functions res.old res.new work.new result }
{
    let end = engine::start::evaluate(sheet, input, work, given, n)?;
    Ok(result::write(res, work, given, end.behaviour, end.course, functions))
}

// What the specs claim is true: the contract asks for every proof, so none can be lost unnoticed.
fn claims_hold() -> bool
    ensures { (result ≡ true) × Proved }
{
    true
}
