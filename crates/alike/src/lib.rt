// Checks that no two marker codes are equal up to rotation (document 02, 2.2).

#![tactic(auto)]

ghost use Rattle.std.specs.Prelude.{◌≡◌, not, ◌≤◌, ◌<◌, min, length, get_or};
ghost use Rattle.alike.specs.Alike.{two_alike};
ghost use Rattle.alike.specs.Quarters.{HasLeast};

mod quarters;

use quarters::Quarters;

// The canonical keys of the first codes; a code past the last is 0.
fn put_least(least: &mut [u64; 512], codes: &[u64], n: usize, bits: u8)
    requires { (1 ≤ bits) × (bits ≤ 8) × (n ≤ 512) }
    ensures { HasLeast bits codes.now n least.new }
{
    let quarters = Quarters::new(bits);
    for k in 0..n {
        least[k] = quarters.least_turn(code_at(codes, k));
    }
}

fn code_at(codes: &[u64], k: usize) -> u64
    ensures { result ≡ get_or codes.now k 0 }
{
    codes.get(k).copied().unwrap_or(0)
}

// Are no two of the first `count` codes equal up to rotation? Reads at most 512, the most markers of a board.
pub fn none_alike(bits: u8, codes: &[u64], count: usize) -> bool
    requires { (1 ≤ bits) × (bits ≤ 8) }
    ensures { result ≡ not (two_alike bits codes.now (min count 512)) }
{
    let n = count.min(512);
    let mut least: [u64; 512] = [0; 512];
    put_least(&mut least, codes, n, bits);
    sorting::all_different(&mut least[..n])
}
