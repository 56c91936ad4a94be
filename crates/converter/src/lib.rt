// Runs a converter of records as a program: reads a record from the standard input and prints the new one.
// A refused record prints `refused` and the error number on the standard error, and nothing on the standard output.

#![tactic(auto)]

ghost use Rattle.std.specs.Prelude.{◌≡◌, ◌≤◌, ℕ, IfOk, List, Result, length};
ghost use Rattle.refusal.specs.declared.Refusal.{Refusal};
ghost use Rattle.place_text.specs.Text.{refusal_line};
ghost use Rattle.place_text.specs.Writing.{Printed};

mod restating;

use place_text::writer::Page;
use refusal::Refusal;
pub use restating::Restate;
use standard_input::Input;

// The line of a refusal, complete if the text has 20 bytes.
fn put_line(text: &mut [u8], refusal: Refusal) -> usize
    ensures line { Printed (refusal_line refusal) 0 result text.old text.new }
    ensures room { length (refusal_line refusal) ≤ 20 }
{
    let mut page = Page { text, at: 0 };
    page.put_refusal(refusal);
    page.at
}

fn tell_refusal(rt: HostRuntime, refusal: Refusal) {
    let mut text: [u8; 20] = [0; 20];
    let length = put_line(&mut text, refusal);
    let _ = standard_output::write_all(&mut rt.stderr(), &text[..length]);
}

// The exit status is always 0: a failure is printed on the standard error, after the program's name.
fn fail(rt: HostRuntime, name: &[u8], what: &[u8]) {
    let _ = standard_output::write_all(&mut rt.stderr(), name);
    let _ = standard_output::write_all(&mut rt.stderr(), what);
}

fn put_sheet(rt: HostRuntime, name: &[u8], sheet: &[u8]) {
    if standard_output::write_all(&mut rt.stdout(), sheet).is_err() {
        fail(rt, name, b": cannot write the standard output\n");
    }
}

pub trait Conversion {
    // The result and the output array at exit, from the record and the array at entry.
    ghost answer: { List ℕ → List ℕ → Result ℕ Refusal };

    ghost list: { List ℕ → List ℕ → List ℕ };

    // Writes the new record to the start of `sheet`, and returns the number of its bytes.
    fn convert(bytes: &[u8], sheet: &mut [u8]) -> Result<usize, Refusal>
        ensures answer { result ≡ answer bytes.now sheet.old }
        ensures list { sheet.new ≡ list bytes.now sheet.old }
        ensures room { IfOk result (λ count. count ≤ length sheet.new) };
}

// A record has at most 65,535 bytes. One more byte is read, so that a longer input fails question 21.
pub fn run<C: Conversion>(rt: HostRuntime, name: &[u8]) {
    let mut bytes: [u8; 65536] = [0; 65536];
    let read = match standard_input::read_all(&mut rt.stdin(), &mut bytes) {
        Ok(Input::Ended(count) | Input::Full(count)) => count,
        Err(_) => {
            fail(rt, name, b": cannot read the standard input\n");
            return;
        }
    };
    let mut sheet: [u8; 65536] = [0; 65536];
    match C::convert(&bytes[..read], &mut sheet) {
        Ok(count) => put_sheet(rt, name, &sheet[..count]),
        Err(refusal) => tell_refusal(rt, refusal),
    }
}
