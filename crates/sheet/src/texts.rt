// The text records at the front of an argument sheet.
ghost use Rattle.std.specs.Prelude.{◌≡◌, ◌<◌};
ghost use Rattle.sheet.specs.Arguments as arguments;

use super::kinds::TEXT;
use super::numbers::number;
use reader::next_record;
use rules::limits::{ARGUMENT_TEXTS, STRING_BYTES};

// The texts at the front of an argument sheet: how many, and where the last ends.
#[derive(Clone, Copy)]
pub struct Front {
    pub count: usize,
    pub end: usize,
}

// A whole record of kind 1 begins here.
pub fn is_text(sheet: &[u8], at: usize) -> bool
    requires { at < 2000 }
    ensures { result ≡ arguments.is_text sheet.now at }
{
    let Some(bounds) = next_record(sheet, at) else {
        return false;
    };
    if bounds.kind != TEXT {
        return false;
    }
    bounds.to - bounds.from <= STRING_BYTES
}

// At most 17 are read; `at` goes from record to record, so no iterator over bytes does it.
pub fn read_texts(sheet: &[u8]) -> Front
    ensures { result ≡ arguments.counted_of (arguments.texts sheet.now) }
{
    let mut at = 0;
    for n in 0..ARGUMENT_TEXTS {
        if !is_text(sheet, at) {
            return Front { count: n, end: at };
        }
        at = at + 4 + number(sheet, at);
    }
    Front {
        count: ARGUMENT_TEXTS,
        end: at,
    }
}
