// The scores of eight cells side by side, for one code after the four turns. Row 2 k + b has in column x what bit k of a code adds to the score of cell
// x where it is b.
ghost use Rattle.std.specs.Prelude.{◌≡◌, ℕ, ◌+◌, ◌*◌, ◌<◌, ◌≤◌, length, get_or};
ghost use Rattle.std.specs.Float.{nan, binary32};
ghost use Rattle.std.specs.Float.Ieee.{add};
ghost use Rattle.lent_list.specs.Scattered.{Wrote};
ghost use Rattle.matcher.specs.Codes.{bit};
ghost use Rattle.score_matrix.specs.Rows.{in_row, FourSources, picked_row, row_score};

use super::turned;

// Writes what the bits of one cell add as column x. Other columns do not change.
pub fn put_column(rows: &mut [f32; 1024], adds: &[f32; 128], count: usize, x: usize)
    requires { (count ≤ 128) × (x < 8) }
    ensures { Wrote nan (λ (i : ℕ). i < count) (λ (i : ℕ). 8 * i + x) (λ (i : ℕ). get_or adds.now i nan) rows.old
        rows.new }
{
    for i in 0..count {
        rows[8 * i + x] = adds[i];
    }
}

// Writes the bit positions of one turn.
fn put_sources(sources: &mut [u8; 256], part: &[u8; 64], turn: usize)
    requires { turn < 4 }
    ensures { Wrote 0 (λ (k : ℕ). k < 64) (λ (k : ℕ). 64 * turn + k) (λ (k : ℕ). get_or part.now k 0) sources.old
        sources.new }
{
    let from = 64 * turn;
    sources[from..from + 64].copy_from_slice(part);
}

// For each turn, and for each bit of the turned code, the bit of the code that it is. The turns are 64 elements apart.
pub fn four_sources(bits: u8) -> [u8; 256]
    requires { bits ≤ 8 }
    ensures { FourSources bits (bits * bits) result }
{
    let mut sources: [u8; 256] = [0; 256];
    for turn in 0..4 {
        let part = turned::source_bits(bits, turn);
        put_sources(&mut sources, &part, turn as usize);
    }
    sources
}

// Adds a row to the eight sums of a turn.
fn add_row(sums: &mut [f32; 32], turn: usize, rows: &[f32; 1024], row: usize)
    requires { (turn < 4) × (row < 128) }
    ensures { Wrote nan (λ (x : ℕ). x < 8) (λ (x : ℕ). 8 * turn + x)
        (λ (x : ℕ). add binary32 (get_or sums.old (8 * turn + x) nan) (in_row rows.now x row)) sums.old sums.new }
{
    let from = 8 * turn;
    let at = 8 * row;
    for x in 0..8 {
        sums[from + x] += rows[at + x];
    }
}

// The row that bit k of a turned code selects; it is bit `source` of the code.
fn row_of(k: usize, code: u64, source: u8) -> usize
    requires { (k < 64) × (source < 64) }
    ensures { result ≡ 2 * k + bit code source }
{
    2 * k + ((code >> source) % 2) as usize
}

// Adds bit k to the 32 sums.
fn add_bit(sums: &mut [f32; 32], rows: &[f32; 1024], sources: &[u8; 256], k: usize, code: u64)
    requires { (k < 64) × ((r : ℕ) → r < 4 → get_or sources.now (64 * r + k) 0 < 64) }
    ensures { (r x : ℕ) → r < 4 → x < 8 → get_or sums.new (8 * r + x) nan
        ≡ add binary32 (get_or sums.old (8 * r + x) nan) (picked_row rows.now sources.now code x r k) }
{
    add_row(sums, 0, rows, row_of(k, code, sources[k]));
    add_row(sums, 1, rows, row_of(k, code, sources[64 + k]));
    add_row(sums, 2, rows, row_of(k, code, sources[128 + k]));
    add_row(sums, 3, rows, row_of(k, code, sources[192 + k]));
}

// The scores of a code after the four turns: that of cell x after turn r has the index 8 r + x. Each score adds in the order of `sum_to`. The compiler
// adds four cells by one instruction.
pub fn sum_turns(rows: &[f32; 1024], sources: &[u8; 256], bits: u8, code: u64) -> [f32; 32]
    requires { (bits ≤ 8) × FourSources bits (bits * bits) sources.now }
    ensures { (r x : ℕ) → r < 4 → x < 8 → get_or result (8 * r + x) nan ≡ row_score rows.now sources.now bits code x r }
{
    let n = (bits as usize) * (bits as usize);
    let mut sums: [f32; 32] = [0.0; 32];
    for k in 0..n {
        add_bit(&mut sums, rows, sources, k, code);
    }
    sums
}
