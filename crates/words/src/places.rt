// Where a scope's areas stand in work memory, and which function its steps and calls are charged to.
ghost use Rattle.std.specs.Prelude.{◌≡◌, ◌+◌, ◌*◌, ◌<◌, ◌≤◌, length};
ghost use Rattle.memory.specs.Layout.{part, counters_end, own_place, variables_place, list_place, string_place, stream_place};
ghost use Rattle.memory.specs.Posts.{Appended, Cut, Raised};
ghost use Rattle.memory.specs.Profile.{Counted, CallBegun, CallEnded};
ghost use Rattle.words.specs.Words.{scope_of};

use crate::ScopeNumber;
use crate::scope::{function, holds, level, stream, streams};
use memory::{Opened, Unit};

// Charges a step to the innermost open function.
pub fn charge(work: &mut [u8], scope: ScopeNumber)
    requires { ((scope_of scope).function ≤ 32) × (5120 ≤ length work.old) }
    ensures { Counted (own_place (scope_of scope).function) 1 work.old work.new }
{
    let f = function(scope);
    memory::charge(work, f);
}

// A call of f begins that the innermost open function opens.
pub fn begin_call(work: &mut [u8], scope: ScopeNumber, f: usize) -> Opened
    requires { ((scope_of scope).function ≤ 32) × (0 < f) × (f ≤ 32) × (counters_end ≤ length work.old) }
    ensures { CallBegun (scope_of scope).function f work.old work.new result }
{
    let caller = function(scope);
    let edge = memory::begin_edge(work, caller, f);
    let outermost = memory::begin_call(work, f);
    Opened {
        edge,
        function: outermost,
    }
}

// It ends, with so many steps made while it was open.
pub fn end_call(work: &mut [u8], scope: ScopeNumber, f: usize, opened: Opened, steps: usize)
    requires { ((scope_of scope).function ≤ 32) × (0 < f) × (f ≤ 32) × (counters_end ≤ length work.old) }
    ensures { CallEnded (scope_of scope).function f opened steps work.old work.new }
{
    let caller = function(scope);
    memory::end_call(work, f, opened.function, steps);
    memory::end_edge(work, caller, f, opened.edge, steps);
}

// The variables of the scope.
pub fn variables_place(u: Unit, scope: ScopeNumber) -> usize
    requires { (scope_of scope).level ≤ 10 }
    ensures { (result ≡ variables_place u.bytes (scope_of scope).level) × (result + 16 * (u.bytes + 2) ≤ list_place u.bytes 0) × (counters_end ≤ result) }
{
    let l = level(scope);
    memory::variables_place(u, l)
}

// The list of the next hold.
pub fn list_place(u: Unit, scope: ScopeNumber) -> usize
    requires { (scope_of scope).holds + 1 ≤ 11 }
    ensures { (result ≡ list_place u.bytes ((scope_of scope).holds + 1)) × (list_place u.bytes 0 ≤ result) × (result + 16 * u.bytes ≤ string_place u.bytes 0) }
{
    let h = holds(scope);
    memory::list_place(u, h + 1)
}

// The string in work.
pub fn string_place(u: Unit, scope: ScopeNumber) -> usize
    requires { (scope_of scope).holds ≤ 10 }
    ensures { (result ≡ string_place u.bytes (scope_of scope).holds) × (string_place u.bytes 0 ≤ result) × (result + u.bytes ≤ stream_place u.bytes 0) }
{
    let h = holds(scope);
    memory::string_place(u, h)
}

// The stream that is written.
pub fn stream_place(u: Unit, scope: ScopeNumber) -> usize
    requires { (scope_of scope).stream ≤ 10 }
    ensures { (result ≡ stream_place u.bytes (scope_of scope).stream) × (stream_place u.bytes 0 ≤ result) × (result + 1024 ≤ stream_place u.bytes 11) }
{
    let k = stream(scope);
    memory::stream_place(u, k)
}

// The first stream that is not in use.
pub fn next_stream_place(u: Unit, scope: ScopeNumber) -> usize
    requires { (scope_of scope).streams ≤ 10 }
    ensures { (result ≡ stream_place u.bytes (scope_of scope).streams) × (stream_place u.bytes 0 ≤ result) × (result + 1024 ≤ stream_place u.bytes 11) }
{
    let k = streams(scope);
    memory::stream_place(u, k)
}

// Copies the scope's variables to the level above, for a context that will be dropped.
pub fn raise(work: &mut [u8], u: Unit, scope: ScopeNumber)
    requires { ((scope_of scope).level ≤ 10) × (list_place u.bytes 0 + 16 * (u.bytes + 2) ≤ length work.old) }
    ensures { Raised u.bytes (variables_place u.bytes (scope_of scope).level) work.old work.new }
{
    let a = variables_place(u, scope);
    memory::raise(work, a, u);
}

// How many of the n bytes of the first stream that is not in use are the value of the embedded command that wrote them.
pub fn caught_length(work: &[u8], u: Unit, scope: ScopeNumber, n: usize) -> usize
    requires { ((scope_of scope).streams ≤ 10) × (n ≤ 1024) × (stream_place u.bytes 11 ≤ length work.now) }
    ensures { Cut (stream_place u.bytes (scope_of scope).streams) n work.now result }
{
    let a = next_stream_place(u, scope);
    memory::value_length(work, a, n)
}

// Adds the m bytes of the first stream that is not in use to the n bytes of the string in work, as far as u bytes; returns how many it has then.
pub fn append_caught(work: &mut [u8], u: Unit, scope: ScopeNumber, n: usize, m: usize) -> usize
    requires u_nonzero { ((scope_of scope).holds ≤ 10) × ((scope_of scope).streams ≤ 10) }
    requires n_le_u { (n ≤ u.bytes) × (m ≤ 1024) × (stream_place u.bytes 11 ≤ length work.old) }
    ensures { Appended u.bytes (string_place u.bytes (scope_of scope).holds) n (part work.old (stream_place u.bytes (scope_of scope).streams) m) work.old work.new result }
{
    let from = next_stream_place(u, scope);
    let a = string_place(u, scope);
    memory::append_within(work, a, n, from, m, u.bytes)
}
