// Bytes as lines of hex: words a space apart, two digits a byte, numbers in decimal.
#![tactic(auto)]

ghost use Rattle.std.specs.Prelude.{◌≡◌, suc, ◌+◌, ◌*◌, ◌/◌, ◌<◌, min, length, drop, true};
ghost use Rattle.hexlines.specs.Words.{ahead, word_of, number_from};
ghost use Rattle.hexlines.specs.Hex.{value, digit_of, decoded, encoded, OutFilled};
ghost use Rattle.hexlines.specs.Proved.{Proved};

// Where the byte stands first, from i on; the length if nowhere.
pub fn find(text: &[u8], i: usize, byte: u8) -> usize
    ensures { result ≡ min (i + ahead byte (drop i text.now)) (length text.now) }
{
    let from = i.min(text.len());
    let rest = &text[from..];
    from + rest.iter().position(|b| *b == byte).unwrap_or(rest.len())
}

// The place behind i, at most the length.
pub fn after(text: &[u8], i: usize) -> usize
    ensures { result ≡ min (suc i) (length text.now) }
{
    i.saturating_add(1).min(text.len())
}

// Word k of a line, the first being 0; nothing if there are fewer.
pub fn word(line: &[u8], k: usize) -> &[u8]
    ensures { result.now ≡ word_of k line.now }
{
    line.split(|b| *b == b' ').nth(k).unwrap_or(&[])
}

// The value of a digit; 0 for a byte that is none.
pub fn nibble(c: u8) -> u8
    ensures { (result ≡ value c) × (result < 16) }
{
    match c {
        b'0'..=b'9' => c - b'0',
        b'a'..=b'f' => c - b'a' + 10,
        _ => 0,
    }
}

// The last digit of a number.
pub fn digit(n: u8) -> u8
    ensures { result ≡ digit_of n }
{
    let low = n % 16;
    if low < 10 {
        b'0' + low
    } else {
        b'a' - 10 + low
    }
}

// The bytes that pairs of digits stand for, as many as fit. An index counts: of what a loop over `iter_mut` under `zip` writes, no proof knows.
pub fn decode(hex: &[u8], out: &mut [u8]) -> usize
    ensures { OutFilled (decoded hex.now) (min (length hex.now / 2) (length out.old)) out.old out.new result }
{
    let count = out.len().min(hex.len() / 2);
    for n in 0..count {
        let high = nibble(hex[2 * n]);
        let low = nibble(hex[2 * n + 1]);
        out[n] = 16 * high + low;
    }
    count
}

// The digits of the bytes, as many pairs as fit. An index counts here too: of what a loop over `chunks_exact_mut` writes, no proof knows.
pub fn encode(bytes: &[u8], out: &mut [u8]) -> usize
    ensures { OutFilled (encoded bytes.now) (2 * min (length bytes.now) (length out.old / 2)) out.old out.new result }
{
    let count = bytes.len().min(out.len() / 2);
    for n in 0..count {
        out[2 * n] = digit(bytes[n] / 16);
        out[2 * n + 1] = digit(bytes[n]);
    }
    2 * count
}

// The number that digits in decimal stand for; of one that is too long, the front.
pub fn decimal(text: &[u8]) -> u64
    ensures { result ≡ number_from 0 text.now }
{
    let mut n = 0;
    for c in text {
        if n >= 100000000000000000 {
            return n;
        }
        n = 10 * n + u64::from(nibble(*c));
    }
    n
}

// What the specs claim is true: the contract asks for every proof, so none can be lost unnoticed.
fn claims_hold() -> bool
    ensures { (result ≡ true) × Proved }
{
    true
}
