// Reading into memory of a fixed size: no byte is allocated.
#![tactic(auto)]

ghost use Rattle.std.specs.Prelude.{◌<◌, ◌≤◌, IfOk, length, take};
ghost use Rattle.std.specs.Io.KnownBytes.{Consumes, IsAtEnd};

use std::io::{self, Read};

// Reads until the memory is full or the input ends, and tells how many bytes now stand at its front: those that the input has lost.
// Where a read fails, its error comes back.
pub fn read_full<R: Read>(from: &mut R, memory: &mut [u8]) -> io::Result<usize>
    ensures bound { IfOk result (λ n. n ≤ length memory.new) }
    ensures bytes { IfOk result (λ n. Consumes (R.remaining from.old) (R.remaining from.new) (take n memory.new)) }
    ensures whole { IfOk result (λ n. n < length memory.new → IsAtEnd (R.remaining from.new)) }
{
    // it goes on by what each read gave, so no `for` counts it
    let mut done = 0;
    while done < memory.len() {
        let n = from.read(&mut memory[done..])?;
        if n == 0 {
            break;
        }
        done += n;
    }
    Ok(done)
}
