// Texts: a length byte and so many bytes, within u bytes.
ghost use Rattle.std.specs.Prelude.{◌≡◌, [], ◌∷◌, ◌++◌, ◌+◌, ◌*◌, ◌<◌, ◌≤◌, ◌%◌, length, get_or, ◌⊎◌};
ghost use Rattle.memory.specs.Layout.{part, Put, text_at};
ghost use Rattle.memory.specs.Posts.{Written};

use crate::Unit;
use crate::stretch::{copy_in, copy_within};

// Where entry i of sixteen entries of u bytes begins: the only product of two variables.
pub(crate) fn times(u: usize, i: usize) -> usize
    requires { (u ≤ 258) × (i < 16) }
    ensures { (result ≡ u * i) × (result + u ≤ 16 * u) }
{
    u * i
}

// The length of the text at a, for any u above 0, which is less than a unit asks. Modulo u, so that no byte there makes a text reach into the next; no division where there is nothing to divide.
pub fn size(work: &[u8], a: usize, u: usize) -> usize
    requires { (a < length work.now) × (0 < u) }
    ensures { (result ≡ get_or work.now a 0 % u) × (result < u) }
{
    let b = usize::from(work[a]);
    if b < u { b } else { b % u }
}

// Makes the n bytes at `from` a text at a.
pub(crate) fn put_text(work: &mut [u8], a: usize, from: usize, n: usize)
    requires { (n < 256) × (a + n + 1 ≤ length work.old) × (from + n ≤ length work.old) × ((from + n ≤ a) ⊎ (a + n + 1 ≤ from)) }
    ensures { Put a (n ∷ part work.old from n) work.old work.new }
{
    work[a] = n as u8;
    copy_within(work, from, a + 1, n);
}

// Writes the text at f, then the byte b, to `to`; returns where that ends.
pub(crate) fn put_field(work: &mut [u8], f: usize, to: usize, b: u8, u: Unit) -> usize
    requires { (f + u.bytes ≤ to) × (to + u.bytes ≤ length work.old) }
    ensures { Written to (text_at u.bytes work.old f ++ b ∷ []) work.old work.new result }
{
    let n = size(work, f, u.bytes);
    copy_within(work, f + 1, to, n);
    let end = to + n;
    work[end] = b;
    end + 1
}

// Makes bytes from outside a text at a.
pub fn text_in(work: &mut [u8], a: usize, src: &[u8])
    requires { (length src.now < 256) × (a + 1 + length src.now ≤ length work.old) }
    ensures { Put a (length src.now ∷ src.now) work.old work.new }
{
    let n = src.len();
    work[a] = n as u8;
    copy_in(work, a + 1, src);
}

// The text at a, read where it is.
pub fn text(work: &[u8], a: usize, u: Unit) -> &[u8]
    requires { a + u.bytes ≤ length work.now }
    ensures { (result.now ≡ text_at u.bytes work.now a) × (length result.now < u.bytes) }
{
    let start = a + 1;
    let end = start + size(work, a, u.bytes);
    &work[start..end]
}
