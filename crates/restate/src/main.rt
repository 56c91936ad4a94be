// Reads a shot record from the standard input and prints it in the current layout, or `refused` and the error number (document 02, 2.7).
// A refusal is printed on the standard error.

#![tactic(auto)]

use converter::Restate;

fn main(rt: HostRuntime) {
    converter::run::<Restate>(rt, b"restate");
}
