// How far a course has come: steps used, the result, and how long the stream is that is written.
#![tactic(auto, unfolding(crate::specs::Words::pace_of))]

ghost use Rattle.std.specs.Prelude.{◌≡◌, ◌+◌, ◌<◌};
ghost use Rattle.words.specs.Words.{Number, pace_of, pace_with, pace_number};

use crate::PaceNumber;

// How many values a part has, and what one of it counts for: as much as all parts below it.
const STEPS: usize = 1048576;

const RESULT_UNIT: usize = STEPS;

const LENGTH_UNIT: usize = 2 * RESULT_UNIT;

const LENGTHS: usize = 2048;

pub(crate) const PACES: usize = LENGTH_UNIT * LENGTHS;

pub fn used(pace: PaceNumber) -> usize
    ensures { (result ≡ (pace_of pace).used) × (result < 1048576) }
{
    pace.number % STEPS
}

pub fn result(pace: PaceNumber) -> bool
    ensures { result ≡ (pace_of pace).result }
{
    pace.number / RESULT_UNIT % 2 == 1
}

pub fn written(pace: PaceNumber) -> usize
    ensures { (result ≡ (pace_of pace).length) × (result < 2048) }
{
    pace.number / LENGTH_UNIT % LENGTHS
}

// The number of a pace with these parts.
pub fn pace(used: usize, res: bool, length: usize) -> PaceNumber
    requires { (used < 1048576) × (length < 2048) }
    ensures { Number pace_of (pace_with used res length) (pace_number used res length) result }
{
    let number = used + RESULT_UNIT * usize::from(res) + LENGTH_UNIT * length;
    PaceNumber { number }
}

// A step made: the other parts stay where they are.
pub fn stepped(pace: PaceNumber) -> PaceNumber
    requires { (pace_of pace).used + 1 < 1048576 }
    ensures { Number pace_of (pace_with ((pace_of pace).used + 1) (pace_of pace).result (pace_of pace).length) (record { number = pace.number + 1 }) result }
{
    let number = pace.number + 1;
    PaceNumber { number }
}
