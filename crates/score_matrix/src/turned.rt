// The scores of turned codes. No code is turned: its bits are read in the order of the turned one.
ghost use Rattle.std.specs.Prelude.{◌≡◌, ℕ, ◌*◌, ◌^◌, ◌<◌, ◌≤◌, length, get_or};
ghost use Rattle.matcher.specs.Codes.{bit, index_of, source};
ghost use Rattle.std.specs.Float.{nan, binary32};
ghost use Rattle.std.specs.Float.Ieee.{add};
ghost use Rattle.floats.specs.Units.{sum_to};
ghost use Rattle.score_matrix.specs.Likelihoods.{Sources, by_bit, picked_from, lane_code};

use super::cell;
use matcher::Place;

fn source_bit(n: u64, turn: u8, p: Place) -> u8
    requires { (n ≤ 8) × (p.x < n) × (p.y < n) }
    ensures { result ≡ index_of n (source n turn p) }
{
    let q = matcher::source_place(n, turn, p);
    (q.y * n + q.x) as u8
}

// For each bit of the turned code, the bit of the code that it is.
pub fn source_bits(bits: u8, turn: u8) -> [u8; 64]
    requires { bits ≤ 8 }
    ensures { Sources bits turn (bits * bits) result }
{
    let n = bits as u64;
    let count = (n * n) as usize;
    let mut sources: [u8; 64] = [0; 64];
    let mut p = Place { x: 0, y: 0 };
    for k in 0..count {
        sources[k] = source_bit(n, turn, p);
        p = cell::next_place(n, p);
    }
    sources
}

// The log-likelihood of a bit: `half` is the half of the code that has it, `one` its mask.
fn chosen(half: u32, one: u32, clear: f32, set: f32) -> f32
    ensures { (s : ℕ) → one ≡ 2 ^ s → result ≡ by_bit (bit half s) clear set }
{
    if half & one == 0 { clear } else { set }
}

// Adds bit s to all eight scores; `from` is the first lane of the halves that have it. Each score selects by itself, so that the
// compiler adds four by one instruction.
fn add_bit(sums: &mut [f32; 8], lanes: &[u32; 16], s: u8, clear: f32, set: f32)
    requires { s < 64 }
    ensures { (x : ℕ) → x < 8 → get_or sums.new x nan
        ≡ add binary32 (get_or sums.old x nan) (by_bit (bit (lane_code lanes.now x) s) clear set) }
{
    let from = 8 * (s / 32) as usize;
    let one: u32 = 1 << (s % 32);
    for x in 0..8 {
        sums[x] += chosen(lanes[from + x], one, clear, set);
    }
}

// The scores of eight codes after the turn of `sources`. Lane x has the low half of code x, lane x + 8 its high half. Each score adds
// in the order of `sum_to`.
pub fn sum_eight(
    likelihoods: &[f32; 128],
    sources: &[u8; 64],
    bits: u8,
    lanes: &[u32; 16],
) -> [f32; 8]
    requires { (bits ≤ 8) × ((k : ℕ) → k < bits * bits → get_or sources.now k 0 < 64) }
    ensures { (x : ℕ) → x < 8 → get_or result x nan
        ≡ sum_to (picked_from likelihoods.now sources.now (lane_code lanes.now x)) (bits * bits) }
{
    let n = (bits as usize) * (bits as usize);
    let mut sums: [f32; 8] = [0.0; 8];
    for k in 0..n {
        add_bit(
            &mut sums,
            lanes,
            sources[k],
            likelihoods[2 * k],
            likelihoods[2 * k + 1],
        );
    }
    sums
}
