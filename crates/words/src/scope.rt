// What evaluation hands down. A reader a part, here and of the other numbers: the unit and the count are all that a line says, so one function with
// both as parameters would be no shorter to call, and its contract could name no part.
#![tactic(auto, unfolding(crate::specs::Words::scope_of))]

ghost use Rattle.std.specs.Prelude.{◌≡◌, ◌<◌};
ghost use Rattle.words.specs.Words.{IsScope, Fit, as_scope, scope_of};

use crate::ScopeNumber;

// How many values a part has, and what one of it counts for: as much as all parts below it. Holds, levels and streams go as deep as each other.
const DEPTHS: usize = 16;

const CALLS: usize = 32;

const FUNCTIONS: usize = 64;

const DROPPED_UNIT: usize = 2;

const PIPED_UNIT: usize = 2 * DROPPED_UNIT;

const HOLDS_UNIT: usize = 2 * PIPED_UNIT;

const LEVEL_UNIT: usize = HOLDS_UNIT * DEPTHS;

const STREAM_UNIT: usize = LEVEL_UNIT * DEPTHS;

const STREAMS_UNIT: usize = STREAM_UNIT * DEPTHS;

const CALLS_UNIT: usize = STREAMS_UNIT * DEPTHS;

const FUNCTION_UNIT: usize = CALLS_UNIT * CALLS;

pub fn condition(scope: ScopeNumber) -> bool
    ensures { result ≡ (scope_of scope).condition }
{
    scope.number % 2 == 1
}

pub fn dropped(scope: ScopeNumber) -> bool
    ensures { result ≡ (scope_of scope).dropped }
{
    scope.number / DROPPED_UNIT % 2 == 1
}

pub fn piped(scope: ScopeNumber) -> bool
    ensures { result ≡ (scope_of scope).piped }
{
    scope.number / PIPED_UNIT % 2 == 1
}

pub fn holds(scope: ScopeNumber) -> usize
    ensures { (result ≡ (scope_of scope).holds) × (result < 16) }
{
    scope.number / HOLDS_UNIT % DEPTHS
}

pub fn level(scope: ScopeNumber) -> usize
    ensures { (result ≡ (scope_of scope).level) × (result < 16) }
{
    scope.number / LEVEL_UNIT % DEPTHS
}

pub fn stream(scope: ScopeNumber) -> usize
    ensures { (result ≡ (scope_of scope).stream) × (result < 16) }
{
    scope.number / STREAM_UNIT % DEPTHS
}

pub fn streams(scope: ScopeNumber) -> usize
    ensures { (result ≡ (scope_of scope).streams) × (result < 16) }
{
    scope.number / STREAMS_UNIT % DEPTHS
}

pub fn calls(scope: ScopeNumber) -> usize
    ensures { (result ≡ (scope_of scope).calls) × (result < 32) }
{
    scope.number / CALLS_UNIT % CALLS
}

pub fn function(scope: ScopeNumber) -> usize
    ensures { (result ≡ (scope_of scope).function) × (result < 64) }
{
    scope.number / FUNCTION_UNIT % FUNCTIONS
}

// The parts of a scope, side by side while a move changes some of them.
#[derive(Clone, Copy)]
pub struct Parts {
    pub condition: bool,
    pub dropped: bool,
    pub piped: bool,
    pub holds: usize,
    pub level: usize,
    pub stream: usize,
    pub streams: usize,
    pub calls: usize,
    pub function: usize,
}

// Those of a scope's number.
#[inline]
pub(crate) fn parts_of(scope: ScopeNumber) -> Parts
    ensures { (as_scope result ≡ scope_of scope) × Fit result }
{
    Parts {
        condition: condition(scope),
        dropped: dropped(scope),
        piped: piped(scope),
        holds: holds(scope),
        level: level(scope),
        stream: stream(scope),
        streams: streams(scope),
        calls: calls(scope),
        function: function(scope),
    }
}

// The number of a scope with these parts.
#[inline]
pub fn scope(parts: Parts) -> ScopeNumber
    requires { Fit parts }
    ensures { IsScope (as_scope parts) result }
{
    let flags = usize::from(parts.condition)
        + DROPPED_UNIT * usize::from(parts.dropped)
        + PIPED_UNIT * usize::from(parts.piped);
    let places = HOLDS_UNIT * parts.holds
        + LEVEL_UNIT * parts.level
        + STREAM_UNIT * parts.stream
        + STREAMS_UNIT * parts.streams;
    let number = flags + places + CALLS_UNIT * parts.calls + FUNCTION_UNIT * parts.function;
    ScopeNumber { number }
}
