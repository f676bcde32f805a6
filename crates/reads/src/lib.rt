// Buffers in place of vectors that grow: an array of one value, and input into a buffer that the caller lends.
#![tactic(auto)]

ghost use Rattle.std.specs.Prelude.{ℕ, ◌≡◌, ◌≤◌, ◌<◌, IfOk, OnErr, length, take};
ghost use Rattle.std.specs.Io.KnownBytes.{Consumes, IsAtEnd};

use std::io;
use std::io::Read;

// Reads until the buffer is full or the input ends, and answers how many bytes it put at the buffer's start. The first read that fails
// is its error.
pub fn read_full<R: Read>(input: &mut R, buffer: &mut [u8]) -> io::Result<usize>
    ensures within { IfOk result (λ n. n ≤ length buffer.new) }

    // Where the reader's bytes are known: those that it gave stand there, and it has no more where there was room for more.
    ensures bytes { IfOk result (λ n. Consumes (R.remaining input.old) (R.remaining input.new) (take n buffer.new)) }
    ensures all { IfOk result (λ n. n < length buffer.new → IsAtEnd (R.remaining input.new)) }

    // A read that fails takes nothing: those before it stand at the buffer's start, and none is lost.
    ensures failed { OnErr result ((n : ℕ) × (n ≤ length buffer.new)
        × Consumes (R.remaining input.old) (R.remaining input.new) (take n buffer.new)) }
{
    let mut filled = 0;

    // Kept: no `for` says it, since each turn's step is what the read gave, and the count is asked for where a read fails too.
    while filled < buffer.len() {
        let n = input.read(&mut buffer[filled..])?;
        if n == 0 {
            break;
        }
        filled += n;
    }
    Ok(filled)
}

// An array of this value. Its length is all that a caller's proof sees: an array written in place stands in its goals cell by cell.
pub fn filled<T: Copy, const N: usize>(value: T) -> [T; N]
    ensures { length result ≡ N }
{
    [value; N]
}
