// The quarters of a code and its canonical key under rotation.
ghost use Rattle.std.specs.Prelude.{◌≡◌, ℕ, ◌*◌, ◌^◌, ◌<◌, ◌≤◌, min, get_or};
ghost use Rattle.matcher.specs.Codes.{bit, from_bits};
ghost use Rattle.alike.specs.Quarters.{quarter as quarter_of, quarter_source, QuarterSources, moved_on, least_turn};

use matcher::Place;

// The number of bits of a quarter.
fn quarter(bits: u8) -> usize
    requires { bits ≤ 8 }
    ensures { result ≡ quarter_of bits }
{
    let half = (bits as usize + 1) / 2;
    half * half
}

// The bit of the code that bit k of its quarters is.
fn source(bits: u8, k: usize) -> u8
    requires { (1 ≤ bits) × (bits ≤ 8) × (k < 64) }
    ensures { result ≡ quarter_source bits k }
{
    let n = bits as u64;
    let half = (bits as usize + 1) / 2;
    let m = quarter(bits);
    let at = k % m;
    let place = matcher::source_place(
        n,
        (k / m) as u8,
        Place {
            x: (at % half) as u64,
            y: (at / half) as u64,
        },
    );
    (place.y * n + place.x) as u8
}

// The number formed by the first `count` bits that `sources` selects.
fn picked(sources: &[u8; 64], count: usize, code: u64) -> u64
    requires { (count ≤ 64) × ((k : ℕ) → k < count → get_or sources.now k 0 < 64) }
    ensures { result ≡ from_bits (λ (k : ℕ). bit code (get_or sources.now k 0)) count }
{
    let mut sum: u64 = 0;
    for k in 0..count {
        sum += (code >> sources[k]) % 2 << k;
    }
    sum
}

fn moved_on(m: usize, w: u64) -> u64
    requires { (m ≤ 16) × (w < 2 ^ (4 * m)) }
    ensures { result ≡ moved_on m w }
{
    let high = w >> m;
    let low = w - (high << m);
    high + (low << 3 * m)
}

// For the codes of one side: which bit of a code each bit of its quarters is.
#[derive(Drop)]
pub struct Quarters {
    bits: u8,
    sources: [u8; 64],
    ghost held: { (1 ≤ bits) × (bits ≤ 8) × QuarterSources bits (4 * quarter_of bits) sources },
}

impl Quarters {
    pub fn new(bits: u8) -> Quarters
        requires { (1 ≤ bits) × (bits ≤ 8) }
        ensures { result.bits ≡ bits }
    {
        let count = 4 * quarter(bits);
        let mut sources: [u8; 64] = [0; 64];
        for k in 0..count {
            sources[k] = source(bits, k);
        }
        Quarters { bits, sources }
    }

    // The canonical key of a code: the least number of the four rotations.
    pub fn least_turn(&self, code: u64) -> u64
        ensures { result ≡ least_turn self.now.bits code }
    {
        let m = quarter(self.bits);
        let as_is = picked(&self.sources, 4 * m, code);
        let once = moved_on(m, as_is);
        let twice = moved_on(m, once);
        let thrice = moved_on(m, twice);
        as_is.min(once).min(twice.min(thrice))
    }
}
