// Reads an input into the caller's array, to its end or by single reads.
// Proved: what follows from each result of a reader's `read` (`after_read`); a read does not change the bytes of the reads before it (`read_part`); an
// array that is reported full is full to its last byte, and the end of the input is reported with room for at least one more byte (`read_all`); where
// the reader's type says which bytes are left, the array has them (`Gives`, `Fills`). The type of the standard input does not say that. Tested instead
// (tests/programs): the array has the input's bytes, and the end is reported only if a read found it.

#![tactic(auto)]

ghost use Rattle.std.specs.Prelude.{◌≡◌, ◌+◌, ◌<◌, ◌^◌, IfOk, length, take};
ghost use Rattle.standard_input.specs.Reading.{after_read, Goes, Stops, Gives, Fills};

use std::io;
use std::io::Read;

// The number of bytes up to the end of the input, or of a full array, after which more may follow.
#[derive(Clone, Copy)]
pub enum Input {
    Ended(usize),
    Full(usize),
}

// The read after the first `done` bytes returned `got`: how many are read by now, `None` at the end. One that a signal interrupts counts as failed.
fn after_read(done: usize, got: io::Result<usize>) -> io::Result<Option<usize>>
    requires { IfOk got (λ n. done + n < 2 ^ 64) }
    ensures { result ≡ after_read done got }
{
    match got? {
        0 => Ok(None),
        n => Ok(Some(done + n)),
    }
}

// One read, after the first `done` bytes: how many are read by now, `None` at the end of the input.
pub fn read_part<R: Read>(
    reader: &mut R,
    bytes: &mut [u8],
    done: usize,
) -> io::Result<Option<usize>>
    requires { done < length bytes.old }
    ensures step { Goes (length bytes.old) done result }
    ensures before { take done bytes.new ≡ take done bytes.old }
    ensures bytes { Gives (R.remaining reader.old) (R.remaining reader.new) done bytes.new result }
{
    after_read(done, reader.read(&mut bytes[done..]))
}

pub fn read_all<R: Read>(reader: &mut R, bytes: &mut [u8]) -> io::Result<Input>
    ensures stops { IfOk result (Stops (length bytes.old)) }
    ensures bytes { IfOk result (Fills (R.remaining reader.old) (R.remaining reader.new) bytes.new) }
{
    let mut done: usize = 0;
    while 0 < bytes.len() - done {
        match read_part(reader, bytes, done)? {
            Some(by_now) => done = by_now,
            None => return Ok(Input::Ended(done)),
        }
    }
    Ok(Input::Full(done))
}
