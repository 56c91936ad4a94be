// Writes text to a stream, and says whether all of it is written.
// Proved: after `Ok` a stream whose type says which bytes it holds holds the text after those that it held. The type of a standard stream does not
// say that. Tested instead (tests/programs): the text is written, and a write that fails is reported.

#![tactic(auto)]

ghost use Rattle.std.specs.Prelude.{OnOk};
ghost use Rattle.std.specs.Io.KnownBytes.{Appends};

use std::io;
use std::io::{ErrorKind, Write};

// Stops with an error at the first write that fails or takes no byte. One that a signal interrupts counts as failed; std's `write_all`, which tries
// such a write again, would change what the programs do. Without text nothing is written.
pub fn write_all<W: Write>(stream: &mut W, text: &[u8]) -> io::Result<()>
    ensures { OnOk result (Appends (W.contents stream.old) (W.contents stream.new) text.now) }
{
    let mut done: usize = 0;
    while done < text.len() {
        match stream.write(&text[done..]) {
            Ok(0) => return Err(io::Error::from(ErrorKind::WriteZero)),
            Ok(count) => done += count,
            Err(error) => return Err(error),
        }
    }
    Ok(())
}
