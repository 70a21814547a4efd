// The names of a sheet's functions, copied from where the sheet has them.
ghost use Rattle.std.specs.Prelude.{◌+◌, ◌<◌, ◌≤◌, length};
ghost use Rattle.text.specs.Put.{Fitted};
ghost use Rattle.text.specs.Names.{functions_of, function_name, Tabled};

use crate::page::Page;
use sheet::reads::{name_of, part, start};

// A sheet with so many functions, and the work memory with the tables that their names are found by.
#[derive(Clone, Copy)]
pub struct Names<'a> {
    pub sheet: &'a [u8],
    pub work: &'a [u8],
    pub functions: usize,
    pub ghost tabled: { Tabled sheet.now work.now functions },
    pub ghost few: { functions ≤ 32 },
}

impl<'a> Names<'a> {
    // Writes the name of function f, which is not main.
    pub fn write(&self, page: &mut Page, f: usize)
        requires { (page.old.at + 63 ≤ length page.old.bytes.now) × (0 < f) × (f ≤ self.now.functions) }
        ensures { Fitted 63 (function_name (functions_of self.now.sheet.now) f) page.old page.new }
    {
        let named = name_of(self.work, f);
        let from = start(self.work, named) + 4;
        let to = from + part(self.sheet, self.work, named, 0);
        page.word(&self.sheet[from..to]);
    }
}
