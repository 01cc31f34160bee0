// Reading a script.
ghost use Rattle.std.specs.Prelude.{◌≡◌, ◌≤◌, length, take, IfOk, IfSome};
ghost use Rattle.std.specs.Io.KnownBytes.{Consumes};

use std::io;
use std::io::Read;

/// Reads to the end of the input, but no more bytes than there is memory for; tells how many.
pub fn read_up_to<R: Read>(reader: &mut R, memory: &mut [u8]) -> io::Result<usize>
    ensures bound { IfOk result (λ n. n ≤ length memory.new) }
    ensures left { IfOk result (λ n. Consumes (R.remaining reader.old) (R.remaining reader.new) (take n memory.new)) }
    ensures bytes { IfOk result (λ n. IfSome (R.remaining reader.old) (λ bs. take n memory.new ≡ take (length memory.old) bs)) }
{
    let mut count = 0;
    while count < memory.len() {
        let read = reader.read(&mut memory[count..])?;
        if read == 0 {
            break;
        }
        count += read;
    }
    Ok(count)
}
