// What the table of an accepted sheet has of its records and functions, and the parts of a record, read where the sheet has them.
ghost use Rattle.std.specs.Prelude.{◌≡◌, ◌+◌, ◌*◌, ◌<◌, ◌≤◌, length};
ghost use Rattle.sheet.specs.Filled.{start_of, mark_in, body_in, named_in, in_record};

use super::table::{BODIES_AT, MARKS_AT, STARTS_AT};

// Functions of the work memory and not of a struct: the evaluator has all its areas in that one slice, which it writes between two reads.

// Where record r begins in the sheet.
pub fn start(work: &[u8], r: usize) -> usize
    requires { (r < 512) × (4096 ≤ length work.now) }
    ensures { (result ≡ start_of work.now r) × (result < 65536) }
{
    reader::number_at(work, STARTS_AT + 2 * r)
}

// What is noted of record r: its slot, or the function that it calls.
pub fn mark(work: &[u8], r: usize) -> usize
    requires { (r < 512) × (4096 ≤ length work.now) }
    ensures { result ≡ mark_in work.now r }
{
    reader::number_at(work, MARKS_AT + 2 * r)
}

// The body of function f.
pub fn body(work: &[u8], f: usize) -> usize
    requires { (f ≤ 32) × (4096 ≤ length work.now) }
    ensures { result ≡ body_in work.now f }
{
    reader::number_at(work, BODIES_AT + 4 * f)
}

// The text that names function f.
pub fn name_of(work: &[u8], f: usize) -> usize
    requires { (f ≤ 32) × (4096 ≤ length work.now) }
    ensures { result ≡ named_in work.now f }
{
    reader::number_at(work, BODIES_AT + 4 * f + 2)
}

// The number that stands d bytes behind the beginning of record r.
pub fn part(sheet: &[u8], work: &[u8], r: usize, d: usize) -> usize
    requires r_bound { (r < 512) × (4096 ≤ length work.now) }
    requires d_bound { (d < 65536) × (start_of work.now r + d + 2 ≤ length sheet.now) }
    ensures { result ≡ in_record sheet.now work.now r d }
{
    let at = start(work, r);
    reader::number_at(sheet, at + d)
}

// The kind of record r.
pub fn kind(sheet: &[u8], work: &[u8], r: usize) -> usize
    requires r_bound { (r < 512) × (4096 ≤ length work.now) }
    requires r_in_bounds { start_of work.now r + 4 ≤ length sheet.now }
    ensures { result ≡ in_record sheet.now work.now r 2 }
{
    part(sheet, work, r, 2)
}
