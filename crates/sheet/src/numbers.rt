// Numbers of two bytes, little-endian.
ghost use Rattle.std.specs.Prelude.{◌≡◌, [], ◌∷◌, ◌+◌, ◌<◌, length};
ghost use Rattle.sheet.specs.Format as format;
ghost use Rattle.sheet.specs.Table as tables;

use reader::number_at;

// The number in the two bytes at i, where a byte past the end is 0.
#[tactic(auto, unfolding(crate::specs::Format::number))]
pub fn number(bytes: &[u8], i: usize) -> usize
    requires { i < 65536 }
    ensures { (result ≡ format.number bytes.now i) × (result < 65536) }
{
    if i + 1 < bytes.len() {
        return number_at(bytes, i);
    }
    usize::from(bytes.get(i).copied().unwrap_or(0))
}

// Writes a number into the two bytes at i.
#[tactic(auto, unfolding(crate::specs::Table::words))]
pub fn put(table: &mut [u8], i: usize, n: usize)
    requires { (i + 1 < length table.old) × (n < 65536) }
    ensures { table.new ≡ tables.written table.old i (n ∷ []) }
{
    let [low, high] = (n as u16).to_le_bytes();
    table[i] = low;
    table[i + 1] = high;
}
