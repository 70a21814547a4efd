// An earlier record, read by its number, and what is wanted of a reference to it.
ghost use Rattle.std.specs.Prelude.{◌≡◌, ◌&&◌, eqb, ltb, ◌<◌, length};
ghost use Rattle.sheet.specs.Format as format;
ghost use Rattle.sheet.specs.Check as checks;
ghost use Rattle.sheet.specs.Ready as ready;

use super::kinds::{TEXT, Want, shape};
use super::names::is_name;
use super::numbers::number;
use super::table::{FUNCTION_NAMES_AT, STARTS_AT};
use reader::number_at;

// The records that a check has read: the sheet, the table that says where each begins, and how many they are.
#[derive(Clone, Copy)]
pub struct Earlier<'s, 't> {
    pub sheet: &'s [u8],
    pub table: &'t [u8],
    pub records: usize,
    ghost held: { ready.Held sheet.now table.now records },
}

impl<'s, 't> Earlier<'s, 't> {
    ghost use Rattle.sheet.specs.Codes as codes;
    ghost use Rattle.sheet.specs.Earlier.{known_in};

    // The kind of record r.
    pub fn kind(self, r: usize) -> usize
        requires { r < self.records }
        ensures { result ≡ checks.kind_of (known_in self.entry) r }
    {
        number(self.sheet, self.start(r) + 2)
    }

    // Where record r begins.
    pub fn start(self, r: usize) -> usize
        requires { r < self.records }
        ensures { result ≡ (checks.record_of (known_in self.entry) r).at }
    {
        number_at(self.table, STARTS_AT + 2 * r)
    }

    // The payload of record r.
    pub fn payload(self, r: usize) -> &'s [u8]
        requires { r < self.records }
        ensures { result.now ≡ checks.payload_of (known_in self.entry) r }
    {
        let at = self.start(r);
        let from = at + 4;
        &self.sheet[from..from + number(self.sheet, at)]
    }

    // Record r is an earlier one, of a kind from low to high.
    fn sorted(self, r: usize, low: usize, high: usize) -> bool
        ensures { result ≡ (ltb r self.entry.records && format.between low (checks.kind_of (known_in self.entry) r) high) }
    {
        r < self.records && (low..=high).contains(&self.kind(r))
    }

    // Record r is an earlier text that is a name.
    fn named(self, r: usize) -> bool
        ensures { result ≡ (ltb r self.entry.records && (eqb (checks.kind_of (known_in self.entry) r) 1 && format.is_name (checks.payload_of (known_in self.entry) r))) }
    {
        r < self.records && self.kind(r) == TEXT && is_name(self.payload(r))
    }

    // A part of a payload is what is wanted of it.
    #[tactic(auto, unfolding(crate::specs::Check::meets))]
    fn meets(self, want: Want, r: usize) -> bool
        ensures { result ≡ codes.meets_want (known_in self.entry) want r }
    {
        match want {
            Want::Nothing => true,
            Want::AnyNumber => true,
            Want::Code => r <= 2,
            Want::Name => self.named(r),
            Want::Text => self.sorted(r, 1, 5),
            Want::List => self.sorted(r, 6, 8),
            Want::Instruction => self.sorted(r, 16, 30),
        }
    }

    // The payload of a record of this kind has the right length, and each part is what is wanted.
    pub fn right(self, kind: usize, part: &[u8]) -> bool
        ensures { result ≡ checks.right (known_in self.entry) (format.shape kind) part.now }
    {
        match shape(kind) {
            Some(l) => {
                l.least <= part.len()
                    && part.len() <= l.most
                    && self.meets(l.first, number(part, 0))
                    && self.meets(l.second, number(part, 2))
                    && self.meets(l.third, number(part, 4))
            }
            None => false,
        }
    }

    // The place of a name among those of the functions, of which there are `count`.
    pub fn find_function(self, count: usize, name: &[u8]) -> Option<usize>
        requires listed { ready.Listed self.sheet.now self.table.now (known_in self) }
        requires count_value { count ≡ length (known_in self).functions }
        ensures { result ≡ ready.found (format.place name.now (checks.function_names (known_in self.entry))) count }
    {
        for i in 0..count {
            let r = number_at(self.table, FUNCTION_NAMES_AT + 4 * i);
            if self.payload(r) == name {
                return Some(i);
            }
        }
        None
    }
}
