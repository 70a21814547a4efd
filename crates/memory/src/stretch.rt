// Stretches of bytes: copied, cleared.
ghost use Rattle.std.specs.Prelude.{◌≡◌, ◌+◌, ◌≤◌, length, replicate};
ghost use Rattle.memory.specs.Layout.{part, Put, Apart};

// Copies all of src to `at`.
pub fn copy_in(work: &mut [u8], at: usize, src: &[u8])
    requires { at + length src.now ≤ length work.old }
    ensures { Put at src.now work.old work.new }
{
    work[at..at + src.len()].copy_from_slice(src);
}

// Copies n bytes of work from one place to another that does not overlap it. Beside copy_in, as put_text is beside text_in, add_field beside
// add_text and stream_within beside stream_in: work cannot be lent to be written and to be read at once, so one function would ask more.
// Byte by byte: mostly they are a few, and the library's own looks first which way to go.
pub(crate) fn copy_within(work: &mut [u8], from: usize, to: usize, n: usize)
    requires { Apart work.old from to n }
    ensures { Put to (part work.old from n) work.old work.new }
{
    for i in 0..n {
        work[to + i] = work[from + i];
    }
}

// Sets every byte to 0.
pub fn clear(work: &mut [u8])
    ensures { work.new ≡ replicate (length work.old) 0 }
{
    work.fill(0);
}
