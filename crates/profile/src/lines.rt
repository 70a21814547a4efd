// The lines of a profile, from the result sheet and the sheet's tables.
ghost use Rattle.std.specs.Prelude.{suc, ◌≡◌, ◌+◌, ◌*◌, ◌≤◌, eqb, length};
ghost use Rattle.runner.specs.Promise.{refusal_number, refusal_place};
ghost use Rattle.text.specs.Put.{spaced, Fitted};
ghost use Rattle.text.specs.Names.{functions_of};
ghost use Rattle.profile.specs.Lines.{refused_line, behaviour_name, truth_name, figures as Lines·figures, name_of};
ghost use Rattle.profile.specs.Rendered.{behaviour_of, end_in, row_in, line_in, lines_in};

use runner::Refused;
use text::name::Names;
use text::page::Page;

// A refusal's number and place.
#[tactic(auto, using(text::proofs::Ends::fitted_end, text::proofs::Ends::number_long, text::proofs::Digits::at_most_twenty))]
pub fn refused(page: &mut Page, why: Refused)
    requires { page.old.at + 64 ≤ length page.old.bytes.now }
    ensures { Fitted 64 (refused_line (refusal_number why) (refusal_place why)) page.old page.new }
{
    page.between(b"refused ", why.number() as usize, b" at ");
    page.number(why.place());
    page.word(b"\n");
}

// The word for a behaviour's byte in a result sheet: an enum between the byte and the word would only be matched once more.
#[tactic(auto, unfolding(crate::specs::Lines::behaviour_name))]
fn behaviour(byte: u8) -> &'static [u8]
    ensures word { result.now ≡ spaced (behaviour_name (behaviour_of byte)) }
    ensures short { length result.now ≤ 8 }
{
    match byte {
        0 => b"normal ",
        1 => b"return ",
        2 => b"exit ",
        _ => b"failure ",
    }
}

// The word for a truth value's byte.
#[tactic(auto, unfolding(crate::specs::Lines::truth_name))]
fn truth(byte: u8) -> &'static [u8]
    ensures word { result.now ≡ spaced (truth_name (eqb byte 1)) }
    ensures short { length result.now ≤ 6 }
{
    if byte == 1 { b"true " } else { b"false " }
}

// The line of the record of kind 64.
#[tactic(auto, using(text::proofs::Ends::wrote_end, text::proofs::Ends::number_ends, text::proofs::Digits::at_most_ten))]
pub fn end_line(page: &mut Page, res: &[u8])
    requires { (page.old.at + 29 ≤ length page.old.bytes.now) × (10 ≤ length res.now) }
    ensures { Fitted 29 (end_in res.now) page.old page.new }
{
    page.word(b"end ");
    page.word(behaviour(res[4]));
    page.word(truth(res[5]));
    page.number(memory::number(res, 6));
    page.word(b"\n");
}

// The figures of function f, from its record of kind 67, with which `row` begins.
#[tactic(auto, using(text::proofs::Ends::wrote_end, text::proofs::Ends::field_ends, text::proofs::Digits::at_most_ten))]
fn figures(page: &mut Page, row: &[u8], f: usize)
    requires { (page.old.at + 47 ≤ length page.old.bytes.now) × (18 ≤ length row.now) × (f ≤ 32) }
    ensures { Fitted 47 (Lines·figures (row_in row.now f)) page.old page.new }
{
    page.word(b"fn ");
    page.field(f);
    page.field(memory::number(row, 6));
    page.field(memory::number(row, 10));
    page.field(memory::number(row, 14));
}

// The name of function f.
fn name(page: &mut Page, names: &Names, f: usize)
    requires { (page.old.at + 63 ≤ length page.old.bytes.now) × (f ≤ names.now.functions) }
    ensures { Fitted 63 (name_of (functions_of names.now.sheet.now) f) page.old page.new }
{
    if f == 0 {
        page.word(b"-");
    } else {
        names.write(page, f);
    }
}

// The line of function f, by the records of kind 67.
fn function_line(page: &mut Page, names: &Names, rows: &[u8], f: usize)
    requires { (page.old.at + 111 ≤ length page.old.bytes.now) × (18 * f + 18 ≤ length rows.now) × (f ≤ names.now.functions) }
    ensures { Fitted 111 (line_in names.now.sheet.now rows.now f) page.old page.new }
{
    figures(page, &rows[18 * f..], f);
    name(page, names, f);
    page.word(b"\n");
}

// The lines of main and the functions.
pub fn function_lines(page: &mut Page, names: &Names, rows: &[u8])
    requires { (page.old.at + 3663 ≤ length page.old.bytes.now) × (18 * names.now.functions + 18 ≤ length rows.now) }
    ensures { Fitted 3663 (lines_in names.now.sheet.now rows.now (suc names.now.functions)) page.old page.new }
{
    for f in 0..names.functions + 1 {
        function_line(page, names, rows, f);
    }
}
