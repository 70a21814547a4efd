// Streams of at most 1,024 bytes. Place and length are two arguments and no struct: callers keep the length alone, and `place` has the place.
ghost use Rattle.std.specs.Prelude.{◌≡◌, ◌+◌, ◌*◌, ◌-◌, ◌<◌, ◌≤◌, length, ◌⊎◌};
ghost use Rattle.memory.specs.Layout.{part, fields_at, variables_at, line_at};
ghost use Rattle.memory.specs.Posts.{Copied, Cut, Level, Streamed, Written, sized_of};
ghost use Rattle.rules.specs.Words.{echoed, env_lines};

use crate::Unit;
use crate::stretch::{copy_in, copy_within};
use crate::text::{put_field, times};
use rules::limits::{NAME_BYTES, STREAM_BYTES};

// What a name takes.
const NAMES: Unit = Unit { bytes: NAME_BYTES };

// Adds bytes from outside to the n bytes of the stream at a.
pub fn stream_in(work: &mut [u8], a: usize, n: usize, src: &[u8]) -> Option<usize>
    requires { (n ≤ 1024) × (a + 1024 ≤ length work.old) }
    ensures { Copied a n src.now work.old work.new result }
{
    if src.len() > STREAM_BYTES - n {
        return None;
    }
    copy_in(work, a + n, src);
    Some(n + src.len())
}

// Adds m bytes from another place of work memory to the n bytes of the stream at a.
pub fn stream_within(work: &mut [u8], a: usize, n: usize, from: usize, m: usize) -> Option<usize>
    requires { (n ≤ 1024) × (a + 1024 ≤ length work.old) × (from + m ≤ length work.old) × ((from + m ≤ a) ⊎ (a + 1024 ≤ from)) }
    ensures { Copied a n (part work.old from m) work.old work.new result }
{
    if m > STREAM_BYTES - n {
        return None;
    }
    copy_within(work, from, a + n, m);
    Some(n + m)
}

// How many of the n bytes of the stream at a are the value of the embedded command that wrote them: all but the newlines at the end.
// A loop: `rposition` would give the place of the last byte that stays, to which 1 has to be added, and nothing where none does.
pub fn value_length(work: &[u8], a: usize, n: usize) -> usize
    requires { a + n ≤ length work.now }
    ensures { Cut a n work.now result }
{
    let mut m = n;
    while m > 0 && work[a + m - 1] == b'\n' {
        m -= 1;
    }
    m
}

// The length of a stream that is written from a to e, unless that is too long.
fn judged(a: usize, e: usize) -> Option<usize>
    requires { a ≤ e }
    ensures { result ≡ sized_of (e - a) }
{
    let n = e - a;
    if n > STREAM_BYTES { None } else { Some(n) }
}

// Writes what echo makes of the m fields of the list at a to `to`.
fn echo_write(work: &mut [u8], a: usize, m: usize, to: usize, u: Unit) -> usize
    requires { (m ≤ 16) × (a + 16 * u.bytes ≤ to) × (to + 16 * u.bytes ≤ length work.old) }
    ensures { Written to (echoed (fields_at u.bytes work.old a m)) work.old work.new result }
{
    if m == 0 {
        work[to] = b'\n';
        return to + 1;
    }
    let last = m - 1;
    let mut e = to;
    for k in 0..last {
        e = put_field(work, a + times(u.bytes, k), e, b' ', u);
    }
    put_field(work, a + times(u.bytes, last), e, b'\n', u)
}

// What echo writes, behind the n bytes of the stream at o. Written first and measured then: there is room behind every stream.
pub fn echo(work: &mut [u8], o: usize, n: usize, a: usize, m: usize, u: Unit) -> Option<usize>
    requires { (m ≤ 16) × (n ≤ 1024) × (a + 16 * u.bytes ≤ o) × (o + 1024 + 16 * u.bytes ≤ length work.old) }
    ensures { Streamed o n (echoed (fields_at u.bytes work.old a m)) work.old work.new result }
{
    let e = echo_write(work, a, m, o + n, u);
    judged(o, e)
}

// Writes the line that env has for the variable at v with the name at f: none unless it is set and marked.
fn env_line(work: &mut [u8], f: usize, v: usize, to: usize, u: Unit) -> usize
    requires { (f + 64 ≤ v) × (v + u.bytes + 2 ≤ to) × (to + 64 + u.bytes ≤ length work.old) }
    ensures { Written to (line_at u.bytes work.old f v) work.old work.new result }
{
    if work[v] == 0 || work[v + 1] == 0 {
        return to;
    }
    let e = put_field(work, f, to, b'=', NAMES);
    put_field(work, v + 2, e, b'\n', u)
}

// Writes the lines of the n variables of the level at a to `to`.
fn env_write(work: &mut [u8], a: usize, n: usize, to: usize, u: Unit) -> usize
    requires level { Level u.bytes work.old a }
    requires n_bound { (n ≤ 16) × (a + 16 * (u.bytes + 2) ≤ to) × (to + 16 * (64 + u.bytes) ≤ length work.old) }
    ensures { Written to (env_lines (variables_at u.bytes work.old a n)) work.old work.new result }
{
    let mut e = to;
    for x in 0..n {
        e = env_line(work, NAME_BYTES * x, a + times(u.bytes + 2, x), e, u);
    }
    e
}

// What env writes, behind the k bytes of the stream at o, from the n variables of the level at a.
pub fn env(work: &mut [u8], o: usize, k: usize, a: usize, n: usize, u: Unit) -> Option<usize>
    requires level { Level u.bytes work.old a }
    requires n_bound { (n ≤ 16) × (k ≤ 1024) × (a + 16 * (u.bytes + 2) ≤ o) × (o + 1024 + 16 * (64 + u.bytes) ≤ length work.old) }
    ensures { Streamed o k (env_lines (variables_at u.bytes work.old a n)) work.old work.new result }
{
    let e = env_write(work, a, n, o + k, u);
    judged(o, e)
}
