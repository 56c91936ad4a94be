// The likelihood table and the score of one cell. If the grid does not have side × side bytes, or the side is above 8, the result is 0, and an array
// of scores does not change.
ghost use Rattle.std.specs.Prelude.{◌≡◌, cond, ◌*◌, ◌≤◌, length, get_or, T};
ghost use Rattle.std.specs.Float.{nan, binary32};
ghost use Rattle.std.specs.Float.Ieee.{sub};
ghost use Rattle.floats.specs.Units.{nought, sum_to};
ghost use Rattle.board.specs.Numbering.{as_one};
ghost use Rattle.score_matrix.specs.Table.{is_table, built_in};
ghost use Rattle.score_matrix.specs.Scores.{samples, score, null_score, read_code};
ghost use Rattle.score_matrix.specs.Likelihoods.{picked};
ghost use Rattle.score_matrix.specs.Weights.{weight};
ghost use Rattle.oracle_exports.specs.Words.{whole_grid, ScoresWritten, border_sample, weight_settings};

use score_matrix::{BoardMatchConfig, cell, table};

// NaN past the table.
pub fn oracle_table_entry(i: usize) -> f32
    ensures { result ≡ get_or built_in i nan }
{
    let entries = table::built_in_table();
    if i < 511 {
        return entries[i];
    }
    0.0 / 0.0
}

pub fn oracle_is_table(table: &[f32]) -> u8
    ensures { result ≡ as_one (is_table table.now) }
{
    u8::from(table::is_table(table))
}

fn border_of(sampled: bool, fraction: f32) -> Option<f32>
    ensures { result ≡ border_sample sampled fraction }
{
    if sampled { Some(fraction) } else { None }
}

pub fn oracle_cell_weight(
    border_threshold: f32,
    least_weight: f32,
    sampled: bool,
    fraction: f32,
) -> f32
    ensures { result ≡ weight (weight_settings border_threshold least_weight) (border_sample sampled fraction) }
{
    let config = BoardMatchConfig {
        px_per_square: 0.0,
        alignment_min_margin: 0.0,
        cell_weight_border_threshold: border_threshold,
        least_weight,
    };
    score_matrix::cell_weight(config, border_of(sampled, fraction))
}

pub fn oracle_null_score(bits: u8) -> f32
    ensures { result ≡ null_score bits }
{
    score_matrix::null_score(bits)
}

pub fn oracle_evidence(score: f32, bits: u8) -> f32
    ensures { result ≡ sub binary32 score (null_score bits) }
{
    score_matrix::evidence(score, bits)
}

fn is_whole(len: usize, bits: u8, border: u8) -> bool
    ensures { result ≡ whole_grid len bits border }
{
    let n = bits as usize + 2 * border as usize;
    bits <= 8 && len == n * n
}

pub fn oracle_score(
    table: &[f32; 511],
    grid: &[u8],
    threshold: u8,
    bits: u8,
    border: u8,
    code: u64,
) -> f32
    ensures { result ≡ cond (whole_grid (length grid.now) bits border)
        (score table.now (samples bits border threshold grid.now) code) nought }
{
    if is_whole(grid.len(), bits, border) {
        return cell::score(table, grid, threshold, bits, border, code);
    }
    0.0
}

pub fn oracle_read_code(grid: &[u8], threshold: u8, bits: u8, border: u8) -> u64
    ensures { result ≡ cond (whole_grid (length grid.now) bits border) (read_code (samples bits border threshold grid.now)) 0 }
{
    if is_whole(grid.len(), bits, border) {
        return cell::read_code(grid, threshold, bits, border);
    }
    0
}

// A score for each code, up to the length of the shorter array.
fn fill_scores(likelihoods: &[f32; 128], bits: u8, codes: &[u64], out: &mut [f32])
    requires { bits ≤ 8 }
    ensures { ScoresWritten (λ code. sum_to (picked likelihoods.now code) (bits * bits)) codes.now out.old
        out.new }
{
    for i in 0..codes.len().min(out.len()) {
        out[i] = cell::sum(likelihoods, bits, codes[i]);
    }
}

pub fn oracle_cell_scores(
    table: &[f32; 511],
    grid: &[u8],
    threshold: u8,
    bits: u8,
    border: u8,
    codes: &[u64],
    out: &mut [f32],
)
    ensures { T (whole_grid (length grid.now) bits border)
        → ScoresWritten (score table.now (samples bits border threshold grid.now)) codes.now out.old
        out.new }
{
    if is_whole(grid.len(), bits, border) {
        let mut likelihoods: [f32; 128] = [0.0; 128];
        cell::bit_likelihoods(&mut likelihoods, table, grid, threshold, bits, border);
        fill_scores(&likelihoods, bits, codes, out);
    }
}
