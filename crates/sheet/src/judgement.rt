// The judgement of the next record, by what is known of the earlier ones.
ghost use Rattle.std.specs.Prelude.{◌≡◌, ◌<◌, length};
ghost use Rattle.sheet.specs.Format as format;
ghost use Rattle.sheet.specs.Check as checks;
ghost use Rattle.sheet.specs.Ready as ready;

use super::earlier::Earlier;
use super::kinds::{FUNCTION, names_variable};
use super::numbers::number;
use super::{Counts, Fault};
use reader::next_record;
use rules::limits::{SHEET_FUNCTIONS, SHEET_VARIABLES};

// How far a check has come: the sheet, the table and the array of slots so far, and the counts.
#[derive(Clone, Copy)]
pub struct SoFar<'s, 't> {
    pub sheet: &'s [u8],
    pub table: &'t [u8],
    // Where each slot's name stands in the sheet: an array of number arrays is asked for in this form (docs/DECISIONS.md, "Named forms").
    pub slots: [[u16; 2]; 16],
    pub counts: Counts,
    ghost ready: { ready.Ready sheet.now table.now slots counts },
}

impl<'s, 't> SoFar<'s, 't> {
    ghost use Rattle.sheet.specs.Earlier.{known_in, known_at};

    // The records read.
    fn earlier(self) -> Earlier<'s, 't>
        ensures known { known_in result ≡ known_at self.entry }
        ensures records { result.records ≡ self.entry.counts.records }
        ensures listed { ready.Listed result.sheet.now result.table.now (known_in result) }
    {
        Earlier {
            sheet: self.sheet,
            table: self.table,
            records: self.counts.records,
        }
    }

    // The slot of a name: its place in the array, or the count.
    fn find_slot(self, name: &[u8]) -> usize
        ensures { result ≡ format.place name.now (checks.variable_names (known_at self.entry)) }
    {
        for i in 0..self.counts.slots {
            let [from, size] = self.slots[i];
            let from = usize::from(from);
            if &self.sheet[from..from + usize::from(size)] == name {
                return i;
            }
        }
        self.counts.slots
    }

    // The name check of a variable whose name is the text r: the slot, or 3 where it would be the seventeenth.
    fn variable(self, r: usize) -> Result<usize, Fault>
        requires { r < self.counts.records }
        ensures { result ≡ ready.slot_verdict (format.place (checks.payload_of (known_at self.entry) r) (checks.variable_names (known_at self.entry))) }
    {
        let i = self.find_slot(self.earlier().payload(r));
        if SHEET_VARIABLES <= i {
            return Err(Fault::Full);
        }
        Ok(i)
    }

    // The name check of a function whose name is the text r: 4 for a second one, 3 for a thirty-third.
    fn function(self, r: usize) -> Result<usize, Fault>
        requires { r < self.counts.records }
        ensures { result ≡ ready.function_verdict (format.place (checks.payload_of (known_at self.entry) r) (checks.function_names (known_at self.entry))) (length (known_at self.entry).functions) }
    {
        let earlier = self.earlier();
        let count = self.counts.functions;
        let namesake = earlier.find_function(count, earlier.payload(r));
        if namesake.is_some() {
            return Err(Fault::Faulty);
        }
        if SHEET_FUNCTIONS <= count {
            return Err(Fault::Full);
        }
        Ok(0)
    }

    // The next record: whether it is whole, as the table of kinds has it, and under no name that is taken; then whether there is room.
    pub fn judge(self) -> Result<usize, Fault>
        ensures { result ≡ ready.judged self.entry.sheet.now (known_at self.entry) }
    {
        let bounds = next_record(self.sheet, self.counts.at).ok_or(Fault::Faulty)?;
        let part = &self.sheet[bounds.from..bounds.to];
        if !self.earlier().right(bounds.kind, part) {
            return Err(Fault::Faulty);
        }
        let r = number(part, 0);
        if names_variable(bounds.kind) {
            self.variable(r)
        } else if bounds.kind == FUNCTION {
            self.function(r)
        } else {
            Ok(0)
        }
    }
}
