// How evaluations end: an instruction with an answer, a string or a list with one number, which passes in a register.
ghost use Rattle.std.specs.Prelude.{◌≡◌, ◌<◌};
ghost use Rattle.engine.specs.Ends.{answered, texted, worded, leaving, Says, refusal_of};
ghost use Rattle.engine.specs.Values.{RunEnd, Text};
ghost use Rattle.words.specs.Words.{course_of, pace_of, feed_of};

use crate::{Ending, Made};
use rules::{Behaviour, Halt, Refusal};
use words::end::{end, flag, kind, pace, rest, size};
use words::moves::with_rest;
use words::{FeedNumber, PaceNumber};

// An instruction that came to its end.
pub fn ended(behaviour: Behaviour, pace: PaceNumber, feed: FeedNumber) -> Result<Ending, Halt>
    ensures { answered result ≡ RunEnd.Ended behaviour (course_of pace feed) }
{
    Ok(Ending {
        behaviour,
        pace,
        feed,
    })
}

// One at which the run is refused.
pub fn halted(why: Refusal, place: usize) -> Result<Ending, Halt>
    ensures { answered result ≡ RunEnd.Refused why place }
{
    Err(Halt { why, place })
}

// A value of n bytes or fields; the flag is a string's.
pub fn value(n: usize, flag: bool, pace: PaceNumber, rest: usize) -> usize
    requires { (n < 512) × (rest < 2048) }
    ensures { Says result (λ f. Text.Value n flag (leaving f (pace_of pace) rest)) }
{
    end(0, flag, n, rest, pace)
}

// An error.
pub fn error(pace: PaceNumber, rest: usize) -> usize
    requires { rest < 2048 }
    ensures { Says result (λ f. Text.Error (leaving f (pace_of pace) rest)) }
{
    end(1, false, 0, rest, pace)
}

// A refusal, with its number and its place.
pub fn refused(why: Refusal, place: usize) -> usize
    requires { place < 2048 }
    ensures { Says result (λ f. Text.Refused why place) }
{
    let number = u32::from(why) as usize;
    let nowhere = PaceNumber { number: 0 }; // a refusal leaves no pace
    end(2, false, number, place, nowhere)
}

// The refusal of a number: only a match tells it, since a string's or a list's end is a number as a whole (crate words, specs/Claims).
fn refusal(number: usize) -> Refusal
    ensures { result ≡ refusal_of number }
{
    match number {
        6 => Refusal::BudgetUsedUp,
        7 => Refusal::LongString,
        8 => Refusal::LongList,
        9 => Refusal::LongStream,
        _ => Refusal::ManyHolds, // 10
    }
}

// What such a number says, for a string or a list that began with this feed.
pub fn opened(end: usize, feed: FeedNumber) -> Result<Made, Halt>
    ensures { texted result ≡ worded (feed_of feed) end }
{
    let k = kind(end);
    if k >= 2 {
        return Err(Halt {
            why: refusal(size(end)),
            place: rest(end),
        });
    }
    let left = with_rest(feed, rest(end));
    if k == 1 {
        return Ok(Made::Error(pace(end), left));
    }
    Ok(Made::Value(size(end), flag(end), pace(end), left))
}
