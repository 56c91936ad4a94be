// Reads a shot record from the standard input and prints the values of its error message (tables/refusals.tsv) for `bin/place`.
// It prints one line of decimal numbers:
//     NUMBER VALUE VALUE MINIMUM
// NUMBER is the error number, 0 if the record is placed. The values are those of the error, as words (include/charuco.h): 7 has needed and available,
// 16 the bit pattern of the margin; a missing value is 0. MINIMUM is the bit pattern of the record's minimum margin, 0 if the record is not
// well-formed.

#![tactic(auto)]

ghost use Rattle.std.specs.Prelude.{◌≡◌, ◌≤◌, length};
ghost use Rattle.place_text.specs.Writing.{Printed};
ghost use Rattle.refusal_values.specs.Values.{number_in, value_in, minimum_in, words_line, values_line};

use board_match::Match;
use place_text::writer::Page;
use refusal::Refusal;
use shot_record::Header;
use standard_input::Input;

fn number_in(answer: Result<Match, Refusal>) -> u32
    ensures { result ≡ number_in answer }
{
    match answer {
        Ok(_) => 0,
        Err(refusal) => refusal.number(),
    }
}

fn value_in(answer: Result<Match, Refusal>, k: usize) -> u32
    ensures { result ≡ value_in answer k }
{
    match answer {
        Ok(_) => 0,
        Err(refusal) => refusal.value(k),
    }
}

fn minimum_in(header: Result<Header, Refusal>) -> u32
    ensures { result ≡ minimum_in header }
{
    match header {
        Ok(h) => {
            let config = h.config;
            floats::to_bits(config.alignment_min_margin)
        }
        Err(_) => 0,
    }
}

fn put_words(text: &mut [u8], number: u32, first: u32, second: u32, minimum: u32) -> usize
    ensures line { Printed (words_line number first second minimum) 0 result text.old text.new }
    ensures room { length (words_line number first second minimum) ≤ 44 }
{
    let mut page = Page { text, at: 0 };
    page.put_decimal(number as u64);
    page.and_decimal(first as u64);
    page.and_decimal(second as u64);
    page.and_decimal(minimum as u64);
    page.put(b'\n');
    page.at
}

// The line for a record, complete if the text has 44 bytes. Match writes to `markers`.
fn put_values(bytes: &[u8], markers: &mut [u32], text: &mut [u8]) -> usize
    ensures line { Printed (values_line bytes.now markers.old) 0 result text.old text.new }
    ensures room { length (values_line bytes.now markers.old) ≤ 44 }
{
    let answer = board_match::match_board(bytes, markers);
    let header = shot_record::read_header(bytes);
    let number = number_in(answer);
    let first = value_in(answer, 0);
    let second = value_in(answer, 1);
    put_words(text, number, first, second, minimum_in(header))
}

// As in `place`: one byte more than a record may have is read, and a failure is printed on the standard error.
fn main(rt: HostRuntime) {
    let mut bytes: [u8; 65536] = [0; 65536];
    let read = match standard_input::read_all(&mut rt.stdin(), &mut bytes) {
        Ok(Input::Ended(count) | Input::Full(count)) => count,
        Err(_) => {
            let _ = standard_output::write_all(
                &mut rt.stderr(),
                b"refusal_values: cannot read the standard input\n",
            );
            return;
        }
    };
    let mut markers: [u32; 4608] = [0; 4608];
    let mut text: [u8; 44] = [0; 44];
    let length = put_values(&bytes[..read], &mut markers, &mut text);
    if standard_output::write_all(&mut rt.stdout(), &text[..length]).is_err() {
        let _ = standard_output::write_all(
            &mut rt.stderr(),
            b"refusal_values: cannot write the standard output\n",
        );
    }
}
