// What a class exercise's bundle holds.
#![tactic(auto)]

ghost use Rattle.std.specs.Prelude.{◌≡◌, ◌+◌, ◌<◌, length, true};
ghost use Rattle.sheet.specs.Format.{long_number};
ghost use Rattle.bundle.specs.Promise.{Read, found};
ghost use Rattle.bundle.specs.Proved.{Proved};

use reader::{Bounds, next_record, number_at};
use rules::limits::Limits;

// A bundle has at most so many bytes.
const MOST_BYTES: usize = 16384;

// The kinds of its records, in their order: the format's numbers, compared and nothing else.
const KIND_LIMITS: usize = 80;

const KIND_SHEET: usize = 81;

const KIND_ARGUMENTS: usize = 82;

const KIND_INPUT: usize = 83;

// What one run is given: the limits, and the other payloads, which stay where they stand.
#[derive(Clone, Copy, Debug)]
pub struct Parts<'a> {
    pub limits: Limits,
    pub sheet: &'a [u8],
    pub arguments: &'a [u8],
    pub input: &'a [u8],
}

// The number in the four bytes at i. (`memory` reads one too, but a bundle stands on no work memory.)
fn wide_number(bytes: &[u8], i: usize) -> u64
    requires { i + 3 < length bytes.now }
    ensures { (result ≡ long_number bytes.now i) × (result < 4294967296) }
{
    u64::from(u32::from_le_bytes([bytes[i], bytes[i + 1], bytes[i + 2], bytes[i + 3]]))
}

// The record of that kind that begins at `at`, if it is there and whole.
fn find(bytes: &[u8], kind: usize, at: usize) -> Option<Bounds>
    ensures { result ≡ found bytes.now kind at }
{
    next_record(bytes, at).filter(|here| here.kind == kind)
}

// The limits and the parts of a bundle: one record each of kinds 80 to 83, nothing after.
pub fn read(bytes: &[u8]) -> Option<Parts<'_>>
    ensures { Read bytes.entry result }
{
    if MOST_BYTES < bytes.len() {
        return None;
    }
    let limits = find(bytes, KIND_LIMITS, 0)?;
    // a header and ten bytes
    if limits.to != 14 {
        return None;
    }
    let sheet = find(bytes, KIND_SHEET, limits.to)?;
    let arguments = find(bytes, KIND_ARGUMENTS, sheet.to)?;
    let input = find(bytes, KIND_INPUT, arguments.to)?;
    if input.to != bytes.len() {
        return None;
    }
    Some(Parts {
        limits: Limits {
            loops: wide_number(bytes, 4),
            stack: number_at(bytes, 8) as u64,
            budget: wide_number(bytes, 10),
        },
        sheet: &bytes[sheet.from..sheet.to],
        arguments: &bytes[arguments.from..arguments.to],
        input: &bytes[input.from..input.to],
    })
}

// What the specs claim is true: the contract asks for every proof, so none can be lost unnoticed.
fn claims_hold() -> bool
    ensures { (result ≡ true) × Proved }
{
    true
}
