// What a line is made of, written one behind the other on a page.
ghost use Rattle.std.specs.Prelude.{◌≡◌, ◌+◌, ◌<◌, ◌≤◌, ◌++◌, length};
ghost use Rattle.text.specs.Decimal.{digit as Decimal·digit, decimal};
ghost use Rattle.text.specs.Put.{spaced, Wrote, Fitted};

// A memory that is written from its front on: `at` is where the next byte goes.
#[derive(Drop)]
pub struct Page<'a> {
    pub bytes: &'a mut [u8],
    pub at: usize,
}

impl<'a> Page<'a> {
    // A page on which nothing is written yet.
    pub fn new(bytes: &'a mut [u8]) -> Page<'a>
        ensures same_memory { result.bytes.ghost_name ≡ bytes.entry.ghost_name }
        ensures bytes { result.bytes.now ≡ bytes.old }
        ensures front { result.at ≡ 0 }
    {
        Page { bytes, at: 0 }
    }

    // A word.
    pub fn word(&mut self, s: &[u8])
        requires { self.old.at + length s.now ≤ length self.old.bytes.now }
        ensures { Wrote s.now self.old self.new }
    {
        memory::copy_in(self.bytes, self.at, s);
        self.at += s.len();
    }

    // A digit.
    fn digit(&mut self, d: usize)
        requires { (self.old.at < length self.old.bytes.now) × (d < 10) }
        ensures { Wrote (Decimal·digit d) self.old self.new }
    {
        self.bytes[self.at] = b'0' + d as u8;
        self.at += 1;
    }

    // A number in decimal: the digits of a tenth of it, and the last one. (The kit's ways to print one want a heap, a stream or a further crate.)
    pub fn number(&mut self, n: usize)
        requires { self.old.at + length (decimal n) ≤ length self.old.bytes.now }
        ensures { Wrote (decimal n) self.old self.new }
    {
        if 10 <= n {
            self.number(n / 10);
        }
        self.digit(n % 10);
    }

    // A number that something follows.
    pub fn field(&mut self, n: usize)
        requires { self.old.at + length (decimal n) + 1 ≤ length self.old.bytes.now }
        ensures { Wrote (spaced (decimal n)) self.old self.new }
    {
        self.number(n);
        self.word(b" ");
    }

    // A number of four bytes between two words.
    #[tactic(auto, using(crate::proofs::Ends::wrote_end, crate::proofs::Digits::at_most_ten))]
    pub fn between(&mut self, before: &[u8], n: usize, behind: &[u8])
        requires { (n < 4294967296) × (self.old.at + length before.now + 10 + length behind.now ≤ length self.old.bytes.now) }
        ensures { Fitted (length before.now + 10 + length behind.now) (before.now ++ decimal n ++ behind.now) self.old self.new }
    {
        self.word(before);
        self.number(n);
        self.word(behind);
    }
}
