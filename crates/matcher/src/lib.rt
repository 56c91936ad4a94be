// Rotates marker codes by multiples of 90° and computes their Hamming distance (matcher.rs).

#![tactic(auto)]

ghost use Rattle.std.specs.Prelude.{◌≡◌, ◌+◌, ◌*◌, ◌<◌, ◌≤◌};
ghost use Rattle.matcher.specs.Codes.{from_bits, source, turned_bit, turned_word, differing};

// Column and row of a bit in a code, from 0.
#[derive(Clone, Copy)]
pub struct Place {
    pub x: u64,
    pub y: u64,
}

// The place of the code that bit `p` of the turned code is read from.
pub fn source_place(n: u64, turn: u8, p: Place) -> Place
    requires { (p.x < n) × (p.y < n) }
    ensures { result ≡ source n turn p }
{
    let last = n - 1;
    let rot = turn % 4;
    match rot {
        0 => p,
        1 => Place {
            x: p.y,
            y: last - p.x,
        },
        2 => Place {
            x: last - p.x,
            y: last - p.y,
        },
        _ => Place {
            x: last - p.y,
            y: p.x,
        },
    }
}

// Adds the bits of row `y` of the turned code to `out`.
fn with_row(out: u64, code: u64, n: u64, turn: u8, y: u64) -> u64
    requires { (n ≤ 8) × (y < n) × (out ≡ from_bits (turned_bit n turn code) (y * n)) }
    ensures { result ≡ from_bits (turned_bit n turn code) (y * n + n) }
{
    let mut sum = out;
    for x in 0..n {
        let p = source_place(n, turn, Place { x, y });
        sum += (code >> (p.y * n + p.x)) % 2 << (y * n + x);
    }
    sum
}

// The code of side `n` rotated by `turn` × 90°, with `turn` taken modulo 4.
// Codes of sides above 8 do not fit a word: the result is 0.
pub fn rotate_code_u64(code: u64, n: u8, turn: u8) -> u64
    ensures { result ≡ turned_word n turn code }
{
    if 8 < n {
        return 0;
    }
    let side = n as u64;
    let mut out: u64 = 0;
    for y in 0..side {
        out = with_row(out, code, side, turn, y);
    }
    out
}

// The Hamming distance of two codes (upstream's `hamming`).
pub fn differing_bits(a: u64, b: u64) -> u32
    ensures { result ≡ differing 64 a b }
{
    (a ^ b).count_ones()
}
