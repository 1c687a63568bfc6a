// Standard input, or any other reader, read up to its end or to that of a buffer.
#![tactic(auto)]

ghost use Rattle.std.specs.Prelude.{◌≡◌, ◌<◌, ◌≤◌, ℕ, IfOk, length, slice_index, take};
ghost use Rattle.std.specs.Io.KnownBytes.{Consumes, IsAtEnd};
ghost use Rattle.reading.specs.Read.{bytes_read};

use std::io::Read;

// A read failed, and `count` bytes were read before it. A caller then gives no answer, since half an input could
// have another. A call that a signal interrupts counts as one that failed.
#[derive(Clone, Copy, Debug, PartialEq, Eq)]
pub struct ReadFailed {
    pub count: usize,
}

// What was read stands in the front of the buffer, whether or not a read failed. Where none failed and the buffer was not filled, the
// input is at its end.
pub fn read_input<R: Read>(reader: &mut R, buffer: &mut [u8]) -> Result<usize, ReadFailed>
    ensures within { bytes_read result ≤ length buffer.new }
    ensures front { bytes_read result ≡ length (take (bytes_read result) buffer.new) }
    ensures reads { Consumes (R.remaining reader.old) (R.remaining reader.new) (take (bytes_read result) buffer.new) }
    ensures ends { IfOk result (λ n. n < length buffer.new → IsAtEnd (R.remaining reader.new)) }
{
    let mut count = 0;
    while count < buffer.len() {
        match reader.read(&mut buffer[count..]) {
            Ok(0) => break,
            Ok(n) => count += n,
            Err(_) => return Err(ReadFailed { count }),
        }
    }
    Ok(count)
}

// An array of zero bytes. A caller's proof learns that its bytes are zero, and looks at none of them, however many they are.
pub fn cleared<const N: usize>() -> [u8; N]
    ensures whole { length result ≡ N }
    ensures zero { (k : ℕ) → slice_index result k ≡ 0 }
{
    [0; N]
}
