// Computes the stored answers in the file `stdin` again with this library and prints how many agree.
// The comment at the top of that file defines the rows. Entry points are called through the C functions of `charuco`, the text comes from
// `place_text`, the rest from `stored_rows`.

#![tactic(auto)]

mod entries;
mod rows;
mod texts;

use stored_rows::tally::{Tally, Used};
use stored_rows::{lines, tally};

// `main` owns the arrays. A loop must terminate: the number of its turns is one that no run uses up.
fn after_input(rt: HostRuntime, bytes: &mut [u8; 65536], words: &mut [u64]) -> Tally {
    let mut tally = Tally::new();
    let mut used = Used { bytes: 0, words: 0 };
    for _ in 0..u64::MAX {
        let line = lines::next_line(&mut rt.stdin());
        let did = rows::effect_of(bytes, words, used, line.words, line.count);
        tally = tally.with(did);
        used = tally::used_after(used, did);
        if !line.more {
            break;
        }
    }
    tally
}

fn main(rt: HostRuntime) {
    let mut bytes: [u8; 65536] = [0; 65536];
    let mut words: [u64; 8600] = [0; 8600];
    let tally = after_input(rt, &mut bytes, &mut words);
    tally::print_all(&mut rt.stdout(), tally);
}
