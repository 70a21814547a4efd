// Names: their bytes, tested and written.
ghost use Rattle.std.specs.Prelude.{◌≡◌, ◌<◌, ◌≤◌, length};
ghost use Rattle.sheet.specs.Format as format;
ghost use Rattle.sheet.specs.Table as tables;

use rules::limits::NAME_BYTES;

// Writes the name of slot i: its length, then its bytes.
pub fn put_name(table: &mut [u8], i: usize, name: &[u8])
    requires { (i < 16) × (length name.now ≤ 63) × (4096 ≤ length table.old) }
    ensures { table.new ≡ tables.name_written table.old i name.now }
{
    let at = NAME_BYTES * i;
    table[at] = name.len() as u8;
    let from = at + 1;
    let to = from + name.len();
    table[from..to].copy_from_slice(name);
}

// A byte that a name may begin with.
#[tactic(auto, unfolding(crate::specs::Format::is_first))]
pub fn is_first(byte: u8) -> bool
    ensures { result ≡ format.is_first byte }
{
    matches!(byte, b'A'..=b'Z' | b'a'..=b'z' | b'_')
}

// A byte that may follow.
#[tactic(auto, unfolding(crate::specs::Format::is_later))]
pub fn is_later(byte: u8) -> bool
    ensures { result ≡ format.is_later byte }
{
    is_first(byte) || matches!(byte, b'0'..=b'9')
}

// Not empty, a first byte that may begin a name, and only bytes behind it that may follow.
#[tactic(auto, unfolding(crate::specs::Format::is_name, crate::specs::Format::all_later))]
pub fn is_name(bytes: &[u8]) -> bool
    ensures { result ≡ format.is_name bytes.now }
{
    match bytes.split_first() {
        Some((first, rest)) => is_first(*first) && rest.iter().all(|byte| is_later(*byte)),
        None => false,
    }
}
