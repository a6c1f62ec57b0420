// An input, read from a file or a pipe.
ghost use Rattle.std.specs.Io.KnownBytes.{Consumes};

use std::io::Read;

// Reads until the buffer is full, the input ends or a read fails, and answers the bytes that were read, at the buffer's
// start. The count stays, since a read answers how far it came; one that fails ends the input, as one of no bytes does.
#[tactic(auto, using(crate::proofs::ReadLaws::within, crate::proofs::ReadLaws::filled))]
pub fn read_full<'a, R: Read>(from: &mut R, buffer: &'a mut [u8]) -> &'a [u8]
    ensures { Consumes (R.remaining from.old) (R.remaining from.new) result.now }
{
    let mut done = 0;
    while done < buffer.len() {
        let n = from.read(&mut buffer[done..]).unwrap_or(0);
        if n == 0 {
            break;
        }
        done += n;
    }
    &buffer[..done]
}

// Reads what is left of an input, up to its end or a read that fails, over and over into the same bytes. Not by io::copy, which goes
// on after a read that was interrupted, and reads 8,192 bytes at a time. A proved loop has to end, and nothing says that an input
// does: it counts its turns, up to a number that no run uses up.
pub fn skip_rest<R: Read>(from: &mut R, bytes: &mut [u8]) {
    for _ in 0..u64::MAX {
        if from.read(bytes).unwrap_or(0) == 0 {
            break;
        }
    }
}
