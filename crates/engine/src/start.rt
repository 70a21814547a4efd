// A run from its beginning: the arguments are taken into memory, and main is entered.
ghost use Rattle.std.specs.Prelude.{◌≡◌};
ghost use Rattle.engine.specs.Start.{Takes, Taken, Started, Evaluated};
ghost use Rattle.words.specs.Words.{course_of};

use crate::{Ended, Lent, instr};
use memory::place::ARGUMENT_ZERO_PLACE;
use memory::{Course, Given, Unit};
use rules::Halt;
use sheet::reads::body;
use words::feed::{arguments, count, from, rest};
use words::limits::limits;
use words::pace::{result, used, written};
use words::start::{start_feed, start_pace, start_scope};
use words::{FeedNumber, PaceNumber};

// Puts the n texts of an argument sheet into work memory: the first as main's argument 0, the others as its arguments. `at` goes from record to
// record, each of which tells where the next one begins.
pub fn take_arguments(arguments: &[u8], work: &mut [u8], u: Unit, n: usize)
    requires { Takes arguments.now work.old u.bytes n }
    ensures { Taken arguments.now u.bytes work.old work.new }
{
    let first = reader::number_at(arguments, 0);
    memory::text_in(work, ARGUMENT_ZERO_PLACE, &arguments[4..4 + first]);
    let list = memory::list_place(u, 0);
    let mut at = 4 + first;
    for k in 1..n {
        let size = reader::number_at(arguments, at);
        memory::add_text(work, list, k - 1, &arguments[at + 4..at + 4 + size], u);
        at = at + 4 + size;
    }
}

// A pace and a feed as the course that they come to.
fn course(pace: PaceNumber, feed: FeedNumber) -> Course
    ensures { result ≡ course_of pace feed }
{
    Course {
        used: used(pace),
        result: result(pace),
        arguments: arguments(feed),
        count: count(feed),
        from: from(feed),
        rest: rest(feed),
        length: written(pace),
    }
}

// Evaluates main: function 0, open from the first step of the run to its last.
pub fn evaluate(
    sheet: &[u8],
    stdin: &[u8],
    work: &mut [u8],
    given: Given,
    n: usize,
) -> Result<Ended, Halt>
    requires { Started sheet.now stdin.now work.old given n }
    ensures { Evaluated sheet.now stdin.now work.old given n work.new result }
{
    let b = body(work, 0);
    let outermost = memory::begin_call(work, 0);
    let lent = Lent {
        sheet,
        stdin,
        limits: limits(given.loops, given.stack, given.budget, given.slots),
        unit: Unit { bytes: given.unit },
    };
    let feed = start_feed(lent.unit, n, stdin.len());
    let end = instr(&lent, work, b, start_scope(), start_pace(), feed)?;
    memory::end_call(work, 0, outermost, used(end.pace));
    Ok(Ended {
        behaviour: end.behaviour,
        course: course(end.pace, end.feed),
    })
}
