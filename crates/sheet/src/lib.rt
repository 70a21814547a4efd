// Which bytes are a sheet, and the table by which evaluation finds its records, slots and functions.
#![tactic(auto)]

ghost use Rattle.std.specs.Prelude.{IfErr, IfNone, ◌≡◌, true, cond, ltb, eqb, [], ◌∷◌, map, suc, ◌+◌, ◌*◌, ◌<◌, ◌≤◌, length, take, set};
ghost use Rattle.sheet.specs.Format as format;
ghost use Rattle.sheet.specs.Check as checks;
ghost use Rattle.sheet.specs.Table as tables;
ghost use Rattle.sheet.specs.Ready as ready;
ghost use Rattle.sheet.specs.Arguments as arguments;
ghost use Rattle.sheet.specs.Proved.{Proved};

mod earlier;
mod judgement;
mod kinds;
mod names;
mod numbers;
pub mod reads;
pub mod table;
mod texts;

use earlier::Earlier;
use judgement::SoFar;
use kinds::{CALL, FUNCTION, MAIN, names_variable};
use names::put_name;
use numbers::{number, put};
use rules::limits::SHEET_BYTES;
use table::{BODIES_AT, FUNCTIONS_AT, MAIN_NAME_AT, MARKS_AT, RECORDS, STARTS_AT};
use texts::read_texts;

// How far a check has come: the records read, where the next one begins, the kind of the last, the slots and the functions.
#[derive(Clone, Copy)]
pub struct Counts {
    pub records: usize,
    pub at: usize,
    pub last: usize,
    pub slots: usize,
    pub functions: usize,
}

// What is wrong with a sheet: there is too much in it, refusal 3, or a record is faulty, refusal 4.
#[derive(Clone, Copy, Debug, PartialEq, Eq)]
pub enum Fault {
    Full,
    Faulty,
}

// A sheet that is refused: for what, and at which record.
#[derive(Clone, Copy, Debug, PartialEq, Eq)]
pub struct Refused {
    pub why: Fault,
    pub place: usize,
}

// How many records, slots and functions a good sheet has.
#[derive(Clone, Copy, Debug, PartialEq, Eq)]
pub struct Accepted {
    pub records: usize,
    pub slots: usize,
    pub functions: usize,
}

impl Fault {
    // The refusal of a sheet for this, at a record.
    fn at(self, place: usize) -> Refused
        ensures { result ≡ record { why = self; place = place } }
    {
        Refused { why: self, place }
    }
}

// The number by which a sheet is refused.
impl From<Fault> for u32 {
    ghost from_gives = { λ why n. n ≡ ready.fault_number why };

    fn from(why: Fault) -> u32 {
        match why {
            Fault::Full => 3,
            Fault::Faulty => 4,
        }
    }
}

fn put_span(slots: &mut [[u16; 2]; 16], i: usize, from: usize, size: usize)
    requires { (i < 16) × (from < 65536) × (size < 65536) }
    ensures { slots.new ≡ set slots.old i (from ∷ size ∷ []) }
{
    slots[i] = [from as u16, size as u16];
}

// Gives a variable that is new the next slot; how many there are then. What is written, here and in `enter`, is no `SoFar`: the fact that
// such a struct carries would have to hold after each single write, and it holds again after the last.
fn enter_variable(
    sheet: &[u8],
    table: &mut [u8],
    slots: &mut [[u16; 2]; 16],
    c: Counts,
    kind: usize,
    slot: usize,
    r: usize,
) -> usize
    requires ready { ready.Ready sheet.now table.old slots.old c }
    requires entering { ready.Entering sheet.now (checks.known sheet.now c.records) kind slot r }
    ensures value { result ≡ length (checks.next sheet.now (checks.known sheet.now c.records)).variables }
    ensures table_after { table.new ≡ ready.with_variable sheet.now (checks.known sheet.now c.records) table.old }
    ensures slots_after { slots.new ≡ ready.spanned sheet.now (checks.known sheet.now c.records) slots.old }
{
    let count = c.slots;
    if !names_variable(kind) {
        return count;
    }
    if slot < count {
        return count;
    }
    let earlier = Earlier {
        sheet,
        table,
        records: c.records,
    };
    let name = earlier.payload(r);
    put_span(slots, count, earlier.start(r) + 4, name.len());
    put_name(table, count, name);
    count + 1
}

// Lists a function; how many there are then.
fn enter_function(table: &mut [u8], count: usize, kind: usize, r: usize, body: usize) -> usize
    requires in_bounds { (4096 ≤ length table.old) × (count ≤ 32) × (r < 65536) × (body < 65536) }
    requires count_bound { kind ≡ 32 → count < 32 }
    ensures value { result ≡ cond (eqb kind 32) (count + 1) count }
    ensures table_after { table.new ≡ cond (eqb kind 32) (tables.written table.old (3076 + 4 * count) (body ∷ r ∷ [])) table.old }
{
    if kind != FUNCTION {
        return count;
    }
    put(table, FUNCTIONS_AT + 4 * count, body);
    put(table, FUNCTIONS_AT + 4 * count + 2, r);
    count + 1
}

// Enters a good record into the table and the array of slots.
fn enter(
    sheet: &[u8],
    table: &mut [u8],
    slots: &mut [[u16; 2]; 16],
    c: Counts,
    slot: usize,
) -> Counts
    requires ready { ready.Ready sheet.now table.old slots.old c }
    requires records_value { (checks.judge sheet.now (checks.known sheet.now c.records) ≡ checks.Judgement.fine) × (slot ≡ (checks.record_here sheet.now (checks.known sheet.now c.records)).slot) × (c.records < 512) }
    ensures value { result ≡ ready.counts_of (checks.next sheet.now (checks.known sheet.now c.records)) }
    ensures table_after { table.new ≡ ready.entered sheet.now (checks.known sheet.now c.records) table.old }
    ensures slots_after { slots.new ≡ ready.spanned sheet.now (checks.known sheet.now c.records) slots.old }
{
    let n = c.records;
    let at = c.at;
    let size = number(sheet, at);
    let kind = number(sheet, at + 2);
    let from = at + 4;
    let to = from + size;
    let part = &sheet[from..to];
    let r = number(part, 0);
    let body = number(part, 2);
    let variables = enter_variable(sheet, table, slots, c, kind, slot, r);
    let functions = enter_function(table, c.functions, kind, r, body);
    put(table, STARTS_AT + 2 * n, at);
    put(table, MARKS_AT + 2 * n, slot);
    Counts {
        records: n + 1,
        at: to,
        last: kind,
        slots: variables,
        functions,
    }
}

// The records one after another.
fn pass(sheet: &[u8], table: &mut [u8]) -> Result<Counts, Refused>
    requires { (length sheet.now ≤ 8192) × (4096 ≤ length table.old) }
    ensures value { result ≡ ready.passed_of (checks.walk sheet.now 512 checks.start) }
    ensures table_after { table.new ≡ ready.passed_table sheet.now (checks.walk sheet.now 512 checks.start) table.old }
{
    let mut slots = [[0u16; 2]; 16];
    let mut c = Counts {
        records: 0,
        at: 0,
        last: 0,
        slots: 0,
        functions: 0,
    };
    // A `while` over places and not a count: each record says where the next one begins.
    while c.at < sheet.len() {
        let place = c.records;
        if place == RECORDS {
            return Err(Fault::Full.at(place));
        }
        if c.last == MAIN {
            return Err(Fault::Faulty.at(place));
        }
        let so_far = SoFar {
            sheet,
            table,
            slots,
            counts: c,
        };
        match so_far.judge() {
            Ok(slot) => c = enter(sheet, table, &mut slots, c, slot),
            Err(why) => return Err(why.at(place)),
        }
    }
    if c.last == MAIN {
        Ok(c)
    } else {
        Err(Fault::Faulty.at(c.records))
    }
}

// Marks record r, if it is a call, with the number of its function: 0 where there is none of the name. The table is written, so it is lent
// beside the sheet here, in `calls` and in `finish`, and not in a struct, which could say of it only what each single write keeps.
fn resolve(sheet: &[u8], table: &mut [u8], n: usize, count: usize, r: usize)
    requires { (ready.Resolving sheet.now table.old n count) × (r < n) }
    ensures { table.new ≡ ready.resolved (checks.known sheet.now n) r table.old }
{
    let earlier = Earlier {
        sheet,
        table,
        records: n,
    };
    if earlier.kind(r) != CALL {
        return;
    }
    let name = number(earlier.payload(r), 0);
    let number = match earlier.find_function(count, earlier.payload(name)) {
        Some(i) => i + 1,
        None => 0,
    };
    put(table, MARKS_AT + 2 * r, number);
}

// Marks every call: it may name a later function.
fn calls(sheet: &[u8], table: &mut [u8], n: usize, count: usize)
    requires { ready.Resolving sheet.now table.old n count }
    ensures { ready.Marked (checks.known sheet.now n) table.old table.new }
{
    for r in 0..n {
        resolve(sheet, table, n, count, r);
    }
}

// Completes the table of a good sheet.
fn finish(sheet: &[u8], table: &mut [u8], c: Counts) -> Accepted
    requires { (ready.Resolving sheet.now table.old c.records c.functions) × (0 < c.records) }
    ensures value { result ≡ record { records = c.records; slots = c.slots; functions = c.functions } }
    ensures completed { ready.Completed (checks.known sheet.now c.records) table.old table.new }
{
    let n = c.records;
    let earlier = Earlier {
        sheet,
        table,
        records: n,
    };
    let body = number(earlier.payload(n - 1), 0);
    calls(sheet, table, n, c.functions);
    put(table, BODIES_AT, body);
    put(table, MAIN_NAME_AT, 0);
    Accepted {
        records: n,
        slots: c.slots,
        functions: c.functions,
    }
}

// Checks a sheet and fills the table for evaluation.
pub fn check(sheet: &[u8], table: &mut [u8]) -> Result<Accepted, Refused>
    requires { 4096 ≤ length table.old }
    ensures value { result ≡ ready.finding_of (checks.check sheet.now) }
    ensures number { IfErr result (λ e. checks.check sheet.now ≡ checks.refused (ready.fault_number e.why) e.place) }
    ensures table_after { table.new ≡ tables.leaves sheet.now (checks.check sheet.now) table.old }
{
    if SHEET_BYTES < sheet.len() {
        return Err(Fault::Full.at(0));
    }
    let c = pass(sheet, table)?;
    Ok(finish(sheet, table, c))
}

// Checks an argument sheet: how many arguments it has, or nothing where it is refused.
pub fn check_arguments(sheet: &[u8]) -> Option<usize>
    ensures value { result ≡ arguments.given_of (arguments.arguments sheet.now) }
    ensures number { IfNone result (arguments.arguments sheet.now ≡ arguments.refused 5 0) }
{
    let t = read_texts(sheet);
    if t.count == 0 {
        return None;
    }
    if t.end != sheet.len() {
        return None;
    }
    Some(t.count)
}

// What the specs claim is true: the contract asks for every proof, so none can be lost unnoticed.
fn claims_hold() -> bool
    ensures { (result ≡ true) × Proved }
{
    true
}
