// Input that is read whole into a lent run of bytes.
#![tactic(auto)]

ghost use Rattle.std.specs.Prelude.{◌≡◌, ◌≤◌, length, take, IfOk};
ghost use Rattle.std.specs.Io.KnownBytes.{Consumes};
ghost use Rattle.input.specs.Full.{EndsIfShort};

use std::io;
use std::io::Read;

// Reads until the bytes are full or the input ends, and tells how many it put at their front.
pub fn read_full<R: Read>(input: &mut R, bytes: &mut [u8]) -> io::Result<usize>
    ensures ok { IfOk result (λ n. n ≤ length bytes.new) }
    ensures read { IfOk result (λ n. Consumes (R.remaining input.old) (R.remaining input.new) (take n bytes.new)) }
    ensures end { IfOk result (λ n. EndsIfShort n bytes.new (R.remaining input.new)) }
    ensures len { length bytes.new ≡ length bytes.old }
{
    let mut done = 0;
    // `read_exact` refuses an input that ends early, and `read_to_end` wants a heap.
    while done < bytes.len() {
        let n = input.read(&mut bytes[done..])?;
        if n == 0 {
            break;
        }
        done += n;
    }
    Ok(done)
}
