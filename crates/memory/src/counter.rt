// The counters of the profile and of the edges. A function is a number up to 32, as the sheet has it: a type of ours would be made at each call.
ghost use Rattle.std.specs.Prelude.{◌≡◌, ◌+◌, ◌<◌, ◌≤◌, length};
ghost use Rattle.memory.specs.Layout.{Put, counters_end, number_at, own_place};
ghost use Rattle.memory.specs.Posts.{four_bytes};
ghost use Rattle.memory.specs.Profile.{Counted, CellBegun, CellClosed, Begun, Closed, EdgeBegun, EdgeClosed};

use crate::place::{CALLEES, COUNTER_BYTES, COUNTERS_PLACE, EDGE_BYTES, EDGES_PLACE};
use crate::stretch::copy_in;

// The number of four bytes at a, low first.
pub fn number(work: &[u8], a: usize) -> usize
    requires { a + 4 ≤ length work.now }
    ensures { (result ≡ number_at work.now a) × (result < 4294967296) }
{
    u32::from_le_bytes([work[a], work[a + 1], work[a + 2], work[a + 3]]) as usize
}

// Makes n the number at a.
pub fn store(work: &mut [u8], a: usize, n: usize)
    requires { (a + 4 ≤ length work.old) × (n < 4294967296) }
    ensures { Put a (four_bytes n) work.old work.new }
{
    copy_in(work, a, &(n as u32).to_le_bytes());
}

// Adds to the number at a, modulo what four bytes hold.
pub fn add(work: &mut [u8], a: usize, by: usize)
    requires { a + 4 ≤ length work.old }
    ensures { Counted a by work.old work.new }
{
    let n = number(work, a).wrapping_add(by);
    store(work, a, n % 4294967296);
}

// Charges a step to function f, the innermost open one.
pub fn charge(work: &mut [u8], f: usize)
    requires { (f ≤ 32) × (5120 ≤ length work.old) }
    ensures { Counted (own_place f) 1 work.old work.new }
{
    add(work, COUNTERS_PLACE + COUNTER_BYTES * f + 4, 1);
}

// A call begins that the cell at c counts, whose flag stands l + 4 bytes further. Returns whether it is an outermost one.
fn open(work: &mut [u8], c: usize, l: usize) -> bool
    requires { c + l + 5 ≤ length work.old }
    ensures { CellBegun c l work.old work.new result }
{
    add(work, c, 1);
    if work[c + l + 4] == 0 {
        work[c + l + 4] = 1;
        return true;
    }
    false
}

// It ends, with so many steps made while it was open. Only those of an outermost one are counted.
fn shut(work: &mut [u8], c: usize, l: usize, outermost: bool, steps: usize)
    requires { c + l + 5 ≤ length work.old }
    ensures { CellClosed c l outermost steps work.old work.new }
{
    if outermost {
        add(work, c + l, steps);
        work[c + l + 4] = 0;
    }
}

// A call of f begins. Returns whether it is an outermost one. What calls and edges share is `open` and `shut`.
pub fn begin_call(work: &mut [u8], f: usize) -> bool
    requires { (f ≤ 32) × (5120 ≤ length work.old) }
    ensures { Begun f work.old work.new result }
{
    open(work, COUNTERS_PLACE + COUNTER_BYTES * f, 8)
}

// A call of f ends, with so many steps made while it was open. Only an outermost one counts for inclusive.
pub fn end_call(work: &mut [u8], f: usize, outermost: bool, steps: usize)
    requires { (f ≤ 32) × (5120 ≤ length work.old) }
    ensures { Closed f outermost steps work.old work.new }
{
    shut(
        work,
        COUNTERS_PLACE + COUNTER_BYTES * f,
        8,
        outermost,
        steps,
    );
}

// A call over the edge from a to b begins. Returns whether it is an outermost one over that edge.
pub fn begin_edge(work: &mut [u8], a: usize, b: usize) -> bool
    requires { (a ≤ 32) × (0 < b) × (b ≤ 32) × (counters_end ≤ length work.old) }
    ensures { EdgeBegun a b work.old work.new result }
{
    open(work, EDGES_PLACE + EDGE_BYTES * (CALLEES * a + b - 1), 4)
}

// A call over the edge from a to b ends.
pub fn end_edge(work: &mut [u8], a: usize, b: usize, outermost: bool, steps: usize)
    requires { (a ≤ 32) × (0 < b) × (b ≤ 32) × (counters_end ≤ length work.old) }
    ensures { EdgeClosed a b outermost steps work.old work.new }
{
    shut(
        work,
        EDGES_PLACE + EDGE_BYTES * (CALLEES * a + b - 1),
        4,
        outermost,
        steps,
    );
}
