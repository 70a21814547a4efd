// A class exercise's run as text: its profile, or its call graph.
#![tactic(auto)]

ghost use Rattle.std.specs.Prelude.{◌≡◌, ◌+◌, ◌≤◌, length, replicate, true};
ghost use Rattle.sheet.specs.Check.{check, accepted, known_of};
ghost use Rattle.text.specs.Names.{Tabled};
ghost use Rattle.text.specs.Put.{Fitted};
ghost use Rattle.profile.specs.Printed.{Prints};
ghost use Rattle.profile.specs.Rendered.{Readable, profile_in};
ghost use Rattle.profile.specs.Proved.{Proved};

mod graph;
mod lines;

pub use graph::draw;
use lines::{end_line, function_lines, refused};
use text::name::Names;
use text::page::Page;

// Prints the profile of the run that a bundle asks for, or why there is none; returns the length of the text. `draw` begins in the same way, with
// another run that is lent another memory.
pub fn print(
    bytes: &[u8],
    res: &mut [u8; 4096],
    work: &mut [u8; 65536],
    text: &mut [u8; 4096],
) -> usize
    ensures { Prints bytes.now res.old work.old text.old res.new work.new text.new result }
{
    let mut page = Page::new(text);
    let Some(parts) = bundle::read(bytes) else {
        page.word(b"bundle\n");
        return page.at;
    };
    match runner::run(
        parts.sheet,
        parts.arguments,
        parts.input,
        parts.limits,
        res,
        work,
    ) {
        Ok(length) => profile(&mut page, parts.sheet, res, work, length),
        Err(why) => refused(&mut page, why),
    }
    page.at
}

// The profile of a run that ended, from its result sheet of n bytes. Work memory was cleared, so the names want the sheet's tables again.
fn profile(page: &mut Page, sheet: &[u8], res: &[u8], work: &mut [u8], n: usize)
    requires { (page.old.at + 4096 ≤ length page.old.bytes.now) × (4096 ≤ length work.old) × (Readable sheet.now res.now n) }
    ensures text { Fitted 4096 (profile_in sheet.now res.now n) page.old page.new }
    ensures work { work.new ≡ replicate (length work.old) 0 }
{
    let functions = tables(sheet, work);
    let names = Names {
        sheet,
        work,
        functions,
    };
    end_line(page, res);
    function_lines(page, &names, &res[n - 18 * (functions + 1)..]);
    memory::clear(work);
}

// Fills the tables of an accepted sheet; returns how many functions it has.
fn tables(sheet: &[u8], work: &mut [u8]) -> usize
    requires { (4096 ≤ length work.old) × (check sheet.now ≡ accepted (known_of sheet.now)) }
    ensures { Tabled sheet.now work.new result }
{
    sheet::check(sheet, work).unwrap().functions
}

// What the specs claim is true: the contract asks for every proof, so none can be lost unnoticed.
fn claims_hold() -> bool
    ensures { (result ≡ true) × Proved }
{
    true
}
