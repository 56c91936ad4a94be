// Reads a shot record from the standard input and prints the placement of its board, or `refused` and the error number (document 01).

#![tactic(auto)]

use standard_input::Input;

// A record has at most 65,535 bytes. One more byte is read, so that a longer input fails question 21. The exit status is always 0: a failure is
// printed on the standard error. The text of a result is never empty.
fn main(rt: HostRuntime) {
    let mut bytes: [u8; 65536] = [0; 65536];
    let read = match standard_input::read_all(&mut rt.stdin(), &mut bytes) {
        Ok(Input::Ended(count) | Input::Full(count)) => count,
        Err(_) => {
            let _ = standard_output::write_all(
                &mut rt.stderr(),
                b"place: cannot read the standard input\n",
            );
            return;
        }
    };
    let mut markers: [u32; 4608] = [0; 4608];
    let mut text: [u8; 32768] = [0; 32768];
    let length = place_text::place(&bytes, read, &mut markers, &mut text);
    if standard_output::write_all(&mut rt.stdout(), &text[..length]).is_err() {
        let _ = standard_output::write_all(
            &mut rt.stderr(),
            b"place: cannot write the standard output\n",
        );
    }
}
