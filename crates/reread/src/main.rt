// Reads a log of shot records from the standard input and prints for each entry its number and the best placement or the error (document 02, 2.9).
// `log_text` has the text: proved is that it is the same in whatever pieces the log is read (`PiecesRule`).

#![tactic(auto)]

ghost use Rattle.std.specs.Prelude.{◌≤◌, IfOk, length};
ghost use Rattle.reread.specs.Printing.{Rest};

// What stops the program before the end of the log: a failed read or a failed write.
#[derive(Clone, Copy)]
enum Failure {
    Read,
    Write,
}

// After the lines of whole entries: the number of bytes left, less than an entry may have, and the highest number.
#[derive(Clone, Copy)]
struct Left {
    count: usize,
    highest: Option<u32>,
}

fn print(rt: HostRuntime, text: &[u8]) -> Result<(), Failure> {
    match standard_output::write_all(&mut rt.stdout(), text) {
        Ok(()) => Ok(()),
        Err(_) => Err(Failure::Write),
    }
}

fn tell(rt: HostRuntime, text: &[u8]) {
    let _ = standard_output::write_all(&mut rt.stderr(), text);
}

// Prints the lines of the whole entries among the first `count` bytes, and moves the bytes after them to the start.
fn print_whole(
    rt: HostRuntime,
    bytes: &mut [u8],
    count: usize,
    highest: Option<u32>,
) -> Result<Left, Failure>
    requires { count ≤ length bytes.old }
    ensures { IfOk result (Rest highest bytes.old count bytes.new) }
{
    let mut text: [u8; 8192] = [0; 8192];
    let mut left = count;
    let mut seen = highest;
    while 0 < left {
        let fed = log_text::feed(&bytes[..left], seen, &mut text);
        if fed.used == 0 {
            return Ok(Left {
                count: left,
                highest: seen,
            });
        }
        print(rt, &text[..fed.written])?;
        left -= fed.used;
        lent_list::move_down(bytes, fed.used, 0, left);
        seen = fed.highest;
    }
    Ok(Left {
        count: 0,
        highest: seen,
    })
}

// Prints the line of an entry that the end of the log cuts off, also on the standard error.
fn print_rest(rt: HostRuntime, bytes: &[u8]) -> Result<(), Failure> {
    let mut text: [u8; 22] = [0; 22];
    let length = log_text::finish(bytes, &mut text);
    if 0 < length {
        print(rt, &text[..length])?;
        tell(rt, b"reread: the last entry is cut off: ");
        tell(rt, &text[..length]);
    }
    Ok(())
}

// An array of 65,541 bytes that is full has a whole entry, so that there is room for at least one byte before each read: a read of no byte would look
// like the end of the log. Lines are printed before the next read. Each read reads a byte, so that a log below 2^64 bytes ends before the count does.
fn print_all(rt: HostRuntime) -> Result<(), Failure> {
    let mut bytes: [u8; 65541] = [0; 65541];
    let mut count: usize = 0;
    let mut highest = None;
    for _ in 0..u64::MAX {
        match standard_input::read_part(&mut rt.stdin(), &mut bytes, count) {
            Ok(Some(by_now)) => {
                let left = print_whole(rt, &mut bytes, by_now, highest)?;
                count = left.count;
                highest = left.highest;
            }
            Ok(None) => break,
            Err(_) => return Err(Failure::Read),
        }
    }
    print_rest(rt, &bytes[..count])
}

// The exit status is always 0: what failed is printed on the standard error.
fn main(rt: HostRuntime) {
    match print_all(rt) {
        Ok(()) => {}
        Err(Failure::Read) => tell(rt, b"reread: cannot read the standard input\n"),
        Err(Failure::Write) => tell(rt, b"reread: cannot write the standard output\n"),
    }
}
