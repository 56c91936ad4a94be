// The score of one cell, and the code read from it. A grid is a slice of the caller's record.
// A grid and its sizes stay parameters: each caller has them in another place (index, board, C arrays) and would build a struct for one call.
ghost use Rattle.std.specs.Prelude.{◌≡◌, cond, ℕ, ◌+◌, ◌*◌, ◌<◌, ◌≤◌, ltb, length};
ghost use Rattle.std.specs.Float.{nan};
ghost use Rattle.floats.specs.Units.{sum_to};
ghost use Rattle.lent_list.specs.Parts.{KeptFrom};
ghost use Rattle.matcher.specs.Codes.{bit_place};
ghost use Rattle.score_matrix.specs.Scores.{samples, side, grid_index, score as score_of, read_code};
ghost use Rattle.score_matrix.specs.Likelihoods.{HoldsLikelihoods, picked};

use super::table;
use matcher::Place;

// The index in the grid of the bit at `p`.
fn grid_index(bits: u64, border: u64, p: Place) -> usize
    requires { (bits ≤ 8) × (border ≤ 255) × (p.x < bits) × (p.y < bits) }
    ensures { result ≡ grid_index bits border p }
{
    ((border + p.y) * (bits + 2 * border) + (border + p.x)) as usize
}

// The place of bit `k` (row-major).
pub fn place(bits: u64, k: u64) -> Place
    requires { 0 < bits }
    ensures { result ≡ bit_place bits k }
{
    Place {
        x: k % bits,
        y: k / bits,
    }
}

// The place of the next bit (row-major). A division for each bit would take twice the time of reading a code.
pub fn next_place(bits: u64, p: Place) -> Place
    requires { (bits ≤ 8) × (p.x < bits) × (p.y < bits) }
    ensures { (k : ℕ) → p ≡ bit_place bits k → result ≡ bit_place bits (k + 1) }
{
    if p.x + 1 < bits {
        return Place { x: p.x + 1, y: p.y };
    }
    Place { x: 0, y: p.y + 1 }
}

// Writes the log-likelihoods of the bits of row y. Elements past them are unchanged.
fn row_likelihoods(
    likelihoods: &mut [f32; 128],
    table: &[f32; 511],
    grid: &[u8],
    threshold: u8,
    bits: u8,
    border: u8,
    y: u64,
)
    requires bits_bound { (bits ≤ 8) × (y < bits)
        × HoldsLikelihoods table.now (samples bits border threshold grid.now) (y * bits) likelihoods.old }
    requires grid_len { length grid.now ≡ side bits border * side bits border }
    ensures holds { HoldsLikelihoods table.now (samples bits border threshold grid.now) (y * bits + bits)
        likelihoods.new }
    ensures rest { KeptFrom nan (2 * (y * bits + bits)) likelihoods.old likelihoods.new }
{
    let n = bits as usize;
    let first = grid_index(bits as u64, border as u64, Place { x: 0, y });
    let at = 2 * (y as usize * n);
    for x in 0..n {
        let grey = grid[first + x];
        likelihoods[at + 2 * x] = table::entry(table, grey, threshold);
        likelihoods[at + 2 * x + 1] = table::entry(table, threshold, grey);
    }
}

// The log-likelihoods of the bits of a cell, into an output array to avoid a copy: bit k adds entry 2k to the score if it is 0,
// entry 2k + 1 if it is 1. Elements past the last bit's are unchanged.
pub fn bit_likelihoods(
    likelihoods: &mut [f32; 128],
    table: &[f32; 511],
    grid: &[u8],
    threshold: u8,
    bits: u8,
    border: u8,
)
    requires bits_bound { bits ≤ 8 }
    requires grid_len { length grid.now ≡ side bits border * side bits border }
    ensures holds { HoldsLikelihoods table.now (samples bits border threshold grid.now) (bits * bits)
        likelihoods.new }
    ensures rest { KeptFrom nan (2 * (bits * bits)) likelihoods.old likelihoods.new }
{
    let n = bits as u64;
    for y in 0..n {
        row_likelihoods(likelihoods, table, grid, threshold, bits, border, y);
    }
}

// The score of a turned code, from the log-likelihoods of the bits.
pub fn sum(likelihoods: &[f32; 128], bits: u8, code: u64) -> f32
    requires { bits ≤ 8 }
    ensures { result ≡ sum_to (picked likelihoods.now code) (bits * bits) }
{
    let n = (bits as usize) * (bits as usize);
    let mut total: f32 = 0.0;
    // Halved, as a shift by a variable takes longer.
    let mut rest = code;
    for k in 0..n {
        total += likelihoods[2 * k + (rest % 2) as usize];
        rest /= 2;
    }
    total
}

pub fn score(table: &[f32; 511], grid: &[u8], threshold: u8, bits: u8, border: u8, code: u64) -> f32
    requires bits_bound { bits ≤ 8 }
    requires grid_len { length grid.now ≡ side bits border * side bits border }
    ensures { result ≡ score_of table.now (samples bits border threshold grid.now) code }
{
    let mut likelihoods: [f32; 128] = [0.0; 128];
    bit_likelihoods(&mut likelihoods, table, grid, threshold, bits, border);
    sum(&likelihoods, bits, code)
}

// The code read from a cell: a bit is 1 if grey is below the threshold.
pub fn read_code(grid: &[u8], threshold: u8, bits: u8, border: u8) -> u64
    requires bits_bound { bits ≤ 8 }
    requires grid_len { length grid.now ≡ side bits border * side bits border }
    ensures { result ≡ read_code (samples bits border threshold grid.now) }
{
    let n = bits as u64;
    let rim = border as u64;
    let mut code: u64 = 0;
    let mut p = Place { x: 0, y: 0 };
    for k in 0..n * n {
        let grey = grid[grid_index(n, rim, p)];
        code += u64::from(grey < threshold) << k;
        p = next_place(n, p);
    }
    code
}

#[cfg(test)]
mod tests {
    use super::*;
    use std::test::Fail;

    fn is_at(p: Place, x: u64, y: u64, bit: &'static str) -> Result<(), &'static str> {
        if p.x == x && p.y == y {
            return Ok(());
        }
        Err(bit)
    }

    // The bits of a code are numbered row by row; the last two are past the last bit.
    #[test]
    fn place_of_bit() -> Result<(), Fail> {
        is_at(place(4, 0), 0, 0, "bit 0 of side 4")?;
        is_at(place(4, 3), 3, 0, "bit 3 of side 4")?;
        is_at(place(4, 4), 0, 1, "bit 4 of side 4")?;
        is_at(place(6, 35), 5, 5, "bit 35 of side 6")?;
        is_at(place(8, 62), 6, 7, "bit 62 of side 8")?;
        is_at(place(1, 9), 0, 9, "bit 9 of side 1")?;
        is_at(place(3, 10), 1, 3, "bit 10 of side 3")?;
        Ok(())
    }
}
