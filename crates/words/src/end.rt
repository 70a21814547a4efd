// What a string or a list comes to: its kind, a string's flag, a size, the rest of the input and the pace that it leaves. The feed's other parts stay.
// It is one number and no enum, which would come back through memory; `engine` opens it into an enum where it is matched on.
#![tactic(auto, unfolding(crate::specs::Words::end_of, crate::specs::Words::pace_of))]

ghost use Rattle.std.specs.Prelude.{◌≡◌, ◌/◌, ◌<◌};
ghost use Rattle.words.specs.Words.{Number, pace_of, end_of, end_with, end_number};

use crate::PaceNumber;
use crate::pace::PACES;

// How many values a part has, and what one of it counts for: as much as all parts below it.
const KINDS: usize = 4;

const SIZES: usize = 512;

const RESTS: usize = 2048;

const FLAG_UNIT: usize = KINDS;

const SIZE_UNIT: usize = 2 * FLAG_UNIT;

const REST_UNIT: usize = SIZE_UNIT * SIZES;

const PACE_UNIT: usize = REST_UNIT * RESTS;

pub fn kind(end: usize) -> usize
    ensures { (result ≡ (end_of end).kind) × (result < 4) }
{
    end % KINDS
}

pub fn flag(end: usize) -> bool
    ensures { result ≡ (end_of end).flag }
{
    end / FLAG_UNIT % 2 == 1
}

pub fn size(end: usize) -> usize
    ensures { (result ≡ (end_of end).size) × (result < 512) }
{
    end / SIZE_UNIT % SIZES
}

pub fn rest(end: usize) -> usize
    ensures { (result ≡ (end_of end).rest) × (result < 2048) }
{
    end / REST_UNIT % RESTS
}

pub fn pace(end: usize) -> PaceNumber
    ensures { Number pace_of (end_of end).pace (record { number = end / 8388608 }) result }
{
    PaceNumber {
        number: end / PACE_UNIT,
    }
}

// The number of an end with these parts. A pace has digits up to 2^32.
pub fn end(kind: usize, flag: bool, size: usize, rest: usize, pace: PaceNumber) -> usize
    requires { (kind < 4) × (size < 512) × (rest < 2048) }
    ensures { Number end_of (end_with kind flag size rest (pace_of pace)) (end_number kind flag size rest pace) result }
{
    let sizes = SIZE_UNIT * size + REST_UNIT * rest;
    kind + FLAG_UNIT * usize::from(flag) + sizes + PACE_UNIT * (pace.number % PACES)
}
