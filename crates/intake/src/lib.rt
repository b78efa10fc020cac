#![tactic(auto)]
// Standard input, or another reader, into a list that is lent.
ghost use Rattle.std.specs.Prelude.{◌≤◌, ◌<◌, length, take, IfOk};
ghost use Rattle.std.specs.Io.KnownBytes.{Consumes, IsAtEnd};

use std::io;
use std::io::Read;

// Reads until the list is full or the input ends: how many bytes, which then stand at the front of the list.
pub fn read_full<R: Read>(from: &mut R, list: &mut [u8]) -> io::Result<usize>
    ensures room { IfOk result (λ n. n ≤ length list.new) }
    ensures bytes { IfOk result (λ n. Consumes (R.remaining from.old) (R.remaining from.new) (take n list.new)) }
    ensures end { IfOk result (λ n. n < length list.new → IsAtEnd (R.remaining from.new)) }
{
    let mut done: usize = 0;
    while done < list.len() {
        let n = from.read(&mut list[done..])?;
        if n == 0 {
            break;
        }
        done += n;
    }
    Ok(done)
}
