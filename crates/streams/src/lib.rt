// Reading what fits from a reader, for the programs: all that they read goes through here.
#![tactic(auto)]

ghost use Rattle.std.specs.Prelude.{◌≤◌, length, take};
ghost use Rattle.std.specs.Io.KnownBytes.{Consumes};

use std::io::Read;

// Reads until `into` is full, the input ends or a read fails, and returns how many bytes it put at the front: those that came next.
pub fn read_full<R: Read>(reader: &mut R, into: &mut [u8]) -> usize
    ensures bound { result ≤ length into.new }
    ensures bytes { Consumes (R.remaining reader.old) (R.remaining reader.new) (take result into.new) }
{
    let mut done = 0;
    while done < into.len() {
        let read = reader.read(&mut into[done..]);
        match read {
            Ok(0) | Err(_) => break,
            Ok(got) => done += got,
        }
    }
    done
}
