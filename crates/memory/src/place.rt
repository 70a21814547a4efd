// Where the areas stand. Each has a function of its own, since what is promised of its place is a bound of its own.
ghost use Rattle.std.specs.Prelude.{◌≡◌, ◌+◌, ◌*◌, ◌<◌, ◌≤◌};
ghost use Rattle.memory.specs.Layout.{counters_end, variables_place, list_place, string_place, stream_place};

use crate::Unit;
use crate::text::times;
use rules::limits::STREAM_BYTES;

// The areas that stand at a fixed place: main's argument 0 with its bytes behind its length, the counters, the edges, and the variables.
pub const ARGUMENT_ZERO_PLACE: usize = 3328;

pub const ARGUMENT_ZERO_BYTES: usize = ARGUMENT_ZERO_PLACE + 1;

pub const COUNTERS_PLACE: usize = 4096;

pub const EDGES_PLACE: usize = 5120;

pub const VARIABLES_PLACE: usize = 14624;

// A function's counters take so many bytes, an edge's so many; a caller has so many edges.
pub const COUNTER_BYTES: usize = 16;

pub const EDGE_BYTES: usize = 9;

pub const CALLEES: usize = 32;

// Where a level of variables stands.
pub fn variables_place(u: Unit, level: usize) -> usize
    requires { level ≤ 10 }
    ensures { (result ≡ variables_place u.bytes level) × (result + 16 * (u.bytes + 2) ≤ list_place u.bytes 0) × (counters_end ≤ result) }
{
    VARIABLES_PLACE + 16 * times(u.bytes + 2, level)
}

// Where a list stands.
pub fn list_place(u: Unit, h: usize) -> usize
    requires { h ≤ 11 }
    ensures { (result ≡ list_place u.bytes h) × (list_place u.bytes 0 ≤ result) × (result + 16 * u.bytes ≤ string_place u.bytes 0) }
{
    VARIABLES_PLACE + 176 * (u.bytes + 2) + 16 * times(u.bytes, h)
}

// Where a string in work stands.
pub fn string_place(u: Unit, h: usize) -> usize
    requires { h ≤ 10 }
    ensures { (result ≡ string_place u.bytes h) × (string_place u.bytes 0 ≤ result) × (result + u.bytes ≤ stream_place u.bytes 0) }
{
    VARIABLES_PLACE + 176 * (u.bytes + 2) + 192 * u.bytes + times(u.bytes, h)
}

// Where a stream stands.
pub fn stream_place(u: Unit, k: usize) -> usize
    requires { k ≤ 10 }
    ensures { (result ≡ stream_place u.bytes k) × (stream_place u.bytes 0 ≤ result) × (result + 1024 ≤ stream_place u.bytes 11) }
{
    VARIABLES_PLACE + 176 * (u.bytes + 2) + 203 * u.bytes + STREAM_BYTES * k
}
