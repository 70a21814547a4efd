// A run's call graph as a file for the viewer.
#![tactic(auto)]

ghost use Rattle.std.specs.Prelude.{◌≡◌, true, ◌+◌, ◌<◌, ◌≤◌, length, [], ◌∷◌, ◌++◌, map};
ghost use Rattle.rules.specs.Graph.{name_of};
ghost use Rattle.memory.specs.Posts.{Written};
ghost use Rattle.text.specs.Put.{Fitted};
ghost use Rattle.text.specs.Names.{functions_of, function_name};
ghost use Rattle.callgrind.specs.File.{header as File·header, definition as File·definition, definitions as File·definitions, main_name, ended, file_of};
ghost use Rattle.callgrind.specs.Ended.{graph_in, Drawable};
ghost use Rattle.callgrind.specs.Proved.{Proved};

mod blocks;

use blocks::Counted;
use memory::place::COUNTERS_PLACE;
use text::name::Names;
use text::page::Page;

// Writes the file of an ended run at the front of the file memory; returns its length.
pub fn write(file: &mut [u8], sheet: &[u8], work: &[u8], functions: usize) -> usize
    requires { Drawable sheet.now work.now file.old functions }
    ensures { Written 0 (file_of (graph_in sheet.now work.now functions)) file.old file.new result }
{
    let steps = memory::number(work, COUNTERS_PLACE + 8);
    let names = Names {
        sheet,
        work,
        functions,
    };
    let mut page = Page::new(file);
    header(&mut page, steps);
    definitions(&mut page, &names);
    Counted { work, functions }.blocks(&mut page);
    page.between(b"\ntotals: ", steps, b"\n");
    page.at
}

// What stands in front of the functions' names, main's with it.
#[tactic(auto, unfolding(crate::specs::File::ended, text::specs::Decimal::decimal, text::specs::Decimal::digits))]
fn header(page: &mut Page, steps: usize)
    requires { (page.old.at + 128 ≤ length page.old.bytes.now) × (steps < 4294967296) }
    ensures { Fitted 128 (ended (File·header steps ++ File·definition 1 main_name ∷ [])) page.old page.new }
{
    page.between(
        b"# callgrind format\nversion: 1\ncreator: colis-runner\npositions: line\nevents: Steps\nsummary: ",
        steps,
        b"\n\nfl=(1) ???\nfn=(1) (main)\n",
    );
}

// The name of function f.
fn definition(page: &mut Page, names: &Names, f: usize)
    requires { (page.old.at + 80 ≤ length page.old.bytes.now) × (0 < f) × (f ≤ names.now.functions) }
    ensures { Fitted 80 (ended (File·definition (f + 1) (function_name (functions_of names.now.sheet.now) f) ∷ [])) page.old page.new }
{
    page.between(b"fn=(", f + 1, b") ");
    names.write(page, f);
    page.word(b"\n");
}

// The names of all functions.
fn definitions(page: &mut Page, names: &Names)
    requires { page.old.at + 2560 ≤ length page.old.bytes.now }
    ensures { Fitted 2560 (ended (File·definitions 2 (map name_of (functions_of names.now.sheet.now)))) page.old page.new }
{
    for f in 0..names.functions {
        definition(page, names, f + 1);
    }
}

// What the specs claim is true: the contract asks for every proof, so none can be lost unnoticed.
fn claims_hold() -> bool
    ensures { (result ≡ true) × Proved }
{
    true
}
