// The variables of a context level. Where one lies is a clause, Level, and no struct: that would hold work by &mut, which callers share out.
ghost use Rattle.std.specs.Prelude.{◌≡◌, ◌+◌, ◌*◌, ◌<◌, ◌≤◌, length};
ghost use Rattle.memory.specs.Layout.{part, text_at};
ghost use Rattle.memory.specs.Posts.{looked, InReach, Level, Assigned, Marked, Raised};

use crate::stretch::copy_within;
use crate::text::{put_text, size, text, times};
use crate::{Source, Unit};

// What a source stands for, read where it is; a variable that is unset is empty.
pub fn lookup<'a>(sheet: &'a [u8], work: &'a [u8], source: Source, u: Unit) -> &'a [u8]
    requires { InReach u.bytes sheet.now work.now source }
    ensures { result.now ≡ looked u.bytes sheet.now work.now source }
{
    match source {
        Source::Text { at, size } => &sheet[at..at + size],
        Source::Variable { slot } => {
            if work[slot + 1] == 0 {
                return &[];
            }
            text(work, slot + 2, u)
        }
    }
}

// Assigns the n bytes at `from` to variable x of the level at a; the mark stays.
pub fn assign(work: &mut [u8], a: usize, x: usize, from: usize, n: usize, u: Unit)
    requires level { Level u.bytes work.old a }
    requires x_bound { (x < 16) × (n < u.bytes) × (a + 16 * (u.bytes + 2) ≤ from) × (from + n ≤ length work.old) }
    ensures { Assigned u.bytes a x (part work.old from n) work.old work.new }
{
    let s = a + times(u.bytes + 2, x);
    work[s + 1] = 1;
    put_text(work, s + 2, from, n);
}

// Assigns the text at f, a field of a list, to variable x.
pub fn assign_text(work: &mut [u8], a: usize, x: usize, f: usize, u: Unit)
    requires level { Level u.bytes work.old a }
    requires x_bound { (x < 16) × (a + 16 * (u.bytes + 2) ≤ f) × (f + u.bytes ≤ length work.old) }
    ensures { Assigned u.bytes a x (text_at u.bytes work.old f) work.old work.new }
{
    let n = size(work, f, u.bytes);
    assign(work, a, x, f + 1, n, u);
}

// Marks variable x as exported, set or not.
pub fn mark(work: &mut [u8], a: usize, x: usize, u: Unit)
    requires level { Level u.bytes work.old a }
    requires x_bound { x < 16 }
    ensures { Marked u.bytes a x work.old work.new }
{
    let s = a + times(u.bytes + 2, x);
    work[s] = 1;
}

// Copies the level at a to the one above it, for a context that will be dropped.
pub fn raise(work: &mut [u8], a: usize, u: Unit)
    requires { (1024 ≤ a) × (a + 32 * (u.bytes + 2) ≤ length work.old) }
    ensures { Raised u.bytes a work.old work.new }
{
    let n = 16 * (u.bytes + 2);
    copy_within(work, a, a + n, n);
}
