// The string in work: no more of it is kept than shows that it is too long.
ghost use Rattle.std.specs.Prelude.{◌+◌, ◌≤◌, length, ◌⊎◌};
ghost use Rattle.memory.specs.Layout.{part};
ghost use Rattle.memory.specs.Posts.{Appended};

use crate::stretch::copy_within;

// Adds m bytes from another place of work memory to the n bytes of the string in work at a, as far as u bytes; returns how many it has then.
// u is any number, which is less than a unit asks.
pub fn append_within(work: &mut [u8], a: usize, n: usize, from: usize, m: usize, u: usize) -> usize
    requires { (n ≤ u) × (a + u ≤ length work.old) × (from + m ≤ length work.old) × ((from + m ≤ a) ⊎ (a + u ≤ from)) }
    ensures { Appended u a n (part work.old from m) work.old work.new result }
{
    let k = (u - n).min(m);
    copy_within(work, from, a + n, k);
    n + k
}
