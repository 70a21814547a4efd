// The result sheet: what an ended run was, written as records of kinds 64 to 67.
#![tactic(auto)]

ghost use Rattle.std.specs.Prelude.{◌≡◌, ◌++◌, suc, ◌+◌, ◌*◌, ◌<◌, ◌≤◌, length, true};
ghost use Rattle.rules.specs.Ruling.{shown};
ghost use Rattle.memory.specs.Layout.{text_at, variables_at};
ghost use Rattle.memory.specs.Posts.{Written};
ghost use Rattle.text.specs.Put.{Wrote};
ghost use Rattle.result.specs.Encoding.{two_bytes, four_bytes, end_record, output_record, variable_records, row_record, row_records, sheet_bytes};
ghost use Rattle.result.specs.Ended.{row_in, rows_in, shown_at, sheet_in, Writable};
ghost use Rattle.result.specs.Proved.{Proved};

use memory::place::{COUNTER_BYTES, COUNTERS_PLACE};
use memory::text::text;
use memory::{Course, Given, Unit};
use rules::Behaviour;
use rules::limits::NAME_BYTES;
use text::page::Page;

// What a name takes.
const NAMES: Unit = Unit { bytes: NAME_BYTES };

// The kinds of the records, in their order: the format's numbers, written and nothing else.
const KIND_END: usize = 64;

const KIND_OUTPUT: usize = 65;

const KIND_VARIABLE: usize = 66;

const KIND_ROW: usize = 67;

// A number of two bytes, low first.
fn two(page: &mut Page, n: usize)
    requires { (page.old.at + 2 ≤ length page.old.bytes.now) × (n < 65536) }
    ensures { Wrote (two_bytes n) page.old page.new }
{
    page.word(&(n as u16).to_le_bytes());
}

// A number of four bytes, low first.
fn four(page: &mut Page, n: usize)
    requires { (page.old.at + 4 ≤ length page.old.bytes.now) × (n < 4294967296) }
    ensures { Wrote (four_bytes n) page.old page.new }
{
    page.word(&(n as u32).to_le_bytes());
}

// The header of a record: payload length and kind.
fn header(page: &mut Page, size: usize, kind: usize)
    requires { (page.old.at + 4 ≤ length page.old.bytes.now) × (size < 65536) × (kind < 65536) }
    ensures { Wrote (two_bytes size ++ two_bytes kind) page.old page.new }
{
    two(page, size);
    two(page, kind);
}

// Kind 64.
fn end_record(page: &mut Page, behaviour: Behaviour, res: bool, steps: usize)
    requires { (page.old.at + 10 ≤ length page.old.bytes.now) × (steps < 4294967296) }
    ensures { Wrote (end_record behaviour res steps) page.old page.new }
{
    header(page, 6, KIND_END);
    page.word(&[behaviour.into(), u8::from(res)]);
    four(page, steps);
}

// Kind 65.
fn output_record(page: &mut Page, output: &[u8])
    requires { (length output.now < 65536) × (page.old.at + 4 + length output.now ≤ length page.old.bytes.now) }
    ensures { Wrote (output_record output.now) page.old page.new }
{
    header(page, output.len(), KIND_OUTPUT);
    page.word(output);
}

// Kind 66 for the variable at v, named by the text at f, if it is set.
fn variable_record(page: &mut Page, work: &[u8], f: usize, v: usize, u: Unit)
    requires { (f + 64 ≤ length work.now) × (v + u.bytes + 2 ≤ length work.now) × (page.old.at + 68 + u.bytes ≤ length page.old.bytes.now) }
    ensures { Wrote (variable_records (shown_at u.bytes work.now f v)) page.old page.new }
{
    if work[v + 1] == 0 {
        return;
    }
    let name = text(work, f, NAMES);
    let value = text(work, v + 2, u);
    header(page, 2 + name.len() + value.len(), KIND_VARIABLE);
    page.word(&[u8::from(work[v] != 0), name.len() as u8]);
    page.word(name);
    page.word(value);
}

// Of the n variables of the level at a, those that are set, each as kind 66, in the order of their slots.
fn variable_records(page: &mut Page, work: &[u8], a: usize, n: usize, u: Unit)
    requires { (u.bytes ≤ 64) × (n ≤ 16) × (1024 ≤ length work.now) × (a + 16 * (u.bytes + 2) ≤ length work.now) × (page.old.at + 16 * 132 ≤ length page.old.bytes.now) }
    ensures { Wrote (variable_records (shown (variables_at u.bytes work.now a n))) page.old page.new }
{
    for x in 0..n {
        variable_record(page, work, NAME_BYTES * x, a + (u.bytes + 2) * x, u);
    }
}

// Kind 67 for function f.
fn row_record(page: &mut Page, work: &[u8], f: usize)
    requires { (f ≤ 32) × (5120 ≤ length work.now) × (page.old.at + 18 ≤ length page.old.bytes.now) }
    ensures { Wrote (row_record (row_in work.now f)) page.old page.new }
{
    let place = COUNTERS_PLACE + COUNTER_BYTES * f;
    let entered = memory::number(work, place);
    let own = memory::number(work, place + 4);
    let inclusive = memory::number(work, place + 8);
    header(page, 14, KIND_ROW);
    two(page, f);
    four(page, entered);
    four(page, own);
    four(page, inclusive);
}

// Kind 67 for main and n functions.
fn row_records(page: &mut Page, work: &[u8], n: usize)
    requires { (n ≤ 32) × (5120 ≤ length work.now) × (page.old.at + 33 * 18 ≤ length page.old.bytes.now) }
    ensures { Wrote (row_records (rows_in work.now 0 (suc n))) page.old page.new }
{
    for f in 0..n + 1 {
        row_record(page, work, f);
    }
}

// Writes the result sheet at the front of `out`, the rest unchanged, and returns its length.
pub fn write(
    out: &mut [u8],
    work: &[u8],
    given: Given,
    behaviour: Behaviour,
    course: Course,
    functions: usize,
) -> usize
    requires { Writable out.old work.now given course functions }
    ensures { Written 0 (sheet_bytes (sheet_in work.now given behaviour course functions)) out.old out.new result }
{
    let u = Unit { bytes: given.unit };
    let mut page = Page::new(out);
    end_record(&mut page, behaviour, course.result, course.used);
    let from = memory::stream_place(u, 0);
    output_record(&mut page, &work[from..from + course.length]);
    let level = memory::variables_place(u, 0);
    variable_records(&mut page, work, level, given.slots, u);
    row_records(&mut page, work, functions);
    page.at
}

// What the specs claim is true: the contract asks for every proof, so none can be lost unnoticed.
fn claims_hold() -> bool
    ensures { (result ≡ true) × Proved }
{
    true
}
