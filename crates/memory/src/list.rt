// Lists of at most 16 fields, and the test on their fields. As of a stream, callers keep how many fields one has, and `place` has its place.
ghost use Rattle.std.specs.Prelude.{◌≡◌, [], ◌∷◌, ◌+◌, ◌*◌, ◌-◌, ◌<◌, ◌≤◌, length};
ghost use Rattle.memory.specs.Layout.{part, fields_at};
ghost use Rattle.memory.specs.Posts.{Added, Run, Grown, Grows};
ghost use Rattle.rules.specs.Words.{passes, stretches, is_blank};

use crate::Unit;
use crate::text::{put_text, text, text_in, times};
use rules::limits::LIST_FIELDS;

// Makes the n bytes at `from` field i of the list at a.
fn add_field(work: &mut [u8], a: usize, i: usize, from: usize, n: usize, u: Unit)
    requires { (i < 16) × (n < u.bytes) × (a + 16 * u.bytes ≤ from) × (from + n ≤ length work.old) }
    ensures { Added u.bytes a i (part work.old from n) work.old work.new }
{
    put_text(work, a + times(u.bytes, i), from, n);
}

// The same, unless i is 16: then nothing is done. Returns how many fields there are then.
pub fn field(work: &mut [u8], a: usize, i: usize, from: usize, n: usize, u: Unit) -> Option<usize>
    requires { (i ≤ 16) × (n < u.bytes) × (a + 16 * u.bytes ≤ from) × (from + n ≤ length work.old) }
    ensures { Grows u.bytes a i (part work.old from n ∷ []) work.old work.new result }
{
    if i == LIST_FIELDS {
        return None;
    }
    add_field(work, a, i, from, n, u);
    Some(i + 1)
}

// Makes bytes from outside, an argument of main, field i of the list at a.
pub fn add_text(work: &mut [u8], a: usize, i: usize, src: &[u8], u: Unit)
    requires { (i < 16) × (length src.now < u.bytes) × (a + 16 * u.bytes ≤ length work.old) }
    ensures { Added u.bytes a i src.now work.old work.new }
{
    text_in(work, a + times(u.bytes, i), src);
}

// The bytes at which split cuts.
fn is_blank(b: u8) -> bool
    ensures { result ≡ is_blank b }
{
    matches!(b, b' ' | b'\t' | b'\n')
}

// Where the blanks from i on end, before e; unless `blank`, where the bytes that are none do. Place by place: a search by an iterator makes a
// slice and an answer of its own for each of a few bytes, which a split into words pays twice a word.
fn run_end(s: &[u8], i: usize, e: usize, blank: bool) -> usize
    requires { (i ≤ e) × (e ≤ length s.now) }
    ensures { Run blank s.now i e result }
{
    for k in i..e {
        if is_blank(s[k]) != blank {
            return k;
        }
    }
    e
}

// How many stretches s has. A `while`: it goes from stretch to stretch and counts no index. By the library's `split` each blank ends a piece,
// and a string with many took two and a half times as long.
fn count_stretches(s: &[u8]) -> usize
    ensures { result ≡ length (stretches s.now) }
{
    let all = s.len();
    let mut n = 0;
    let mut start = run_end(s, 0, all, true);
    while start < all {
        let end = run_end(s, start, all, false);
        start = run_end(s, end, all, true);
        n += 1;
    }
    n
}

// Adds the stretches of the bytes from i to e, n of them, to the m fields of the list at a.
fn add_stretches(work: &mut [u8], a: usize, m: usize, n: usize, i: usize, e: usize, u: Unit)
    requires within { (i ≤ e) × (e - i < u.bytes) × (e ≤ length work.old) × (a + 16 * u.bytes ≤ i) }
    requires count { (n ≡ length (stretches (part work.old i (e - i)))) × (m + n ≤ 16) }
    ensures { Grown u.bytes a m (stretches (part work.old i (e - i))) work.old work.new (m + n) }
{
    let mut end = i;
    for k in m..m + n {
        let start = run_end(work, end, e, true);
        end = run_end(work, start, e, false);
        add_field(work, a, k, start, end - start, u);
    }
}

// The same, unless there would be more than 16 fields: they are counted first, and then nothing is done. Returns how many there are then.
pub fn split(work: &mut [u8], a: usize, m: usize, i: usize, e: usize, u: Unit) -> Option<usize>
    requires { (i ≤ e) × (e - i < u.bytes) × (e ≤ length work.old) × (a + 16 * u.bytes ≤ i) × (m ≤ 16) }
    ensures { Grows u.bytes a m (stretches (part work.old i (e - i))) work.old work.new result }
{
    let n = count_stretches(&work[i..e]);
    if n > LIST_FIELDS - m {
        return None;
    }
    add_stretches(work, a, m, n, i, e, u);
    Some(m + n)
}

// The result of test on the n fields of the list at a.
pub fn test(work: &[u8], a: usize, n: usize, u: Unit) -> bool
    requires { a + 16 * u.bytes ≤ length work.now }
    ensures { result ≡ passes (fields_at u.bytes work.now a n) }
{
    match n {
        2 => text(work, a, u) == b"-n".as_slice() && !text(work, a + u.bytes, u).is_empty(),
        3 => text(work, a + u.bytes, u) == b"=".as_slice()
            && text(work, a, u) == text(work, a + 2 * u.bytes, u),
        _ => false,
    }
}
