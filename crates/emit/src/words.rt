// The marker of one cell, and its 18 words in the output array.
ghost use Rattle.std.specs.Prelude.{◌≡◌, ◌+◌, ◌*◌, ◌≤◌, length, pos};
ghost use mathlib.Core.List.{flat_map};
ghost use Rattle.std.specs.Float.{binary32};
ghost use Rattle.std.specs.Float.Ieee.{div, of_int};
ghost use Rattle.shot_record.specs.Fields.{grid_size};
ghost use Rattle.lent_list.specs.Front.{Put};
ghost use Rattle.emit.specs.Markers.{marker_words};
ghost use Rattle.emit.specs.Candidates.{marker_from, samples_in, emitted_from};

use super::candidates::Candidate;
use hypothesis::Inputs;
use score_matrix::cell;

// `read` is the code read from the cell.
fn marker_words(c: Candidate, read: u64, quotient: f32, px_per_square: f32) -> [u32; 18]
    ensures { result ≡ marker_words (marker_from c read quotient px_per_square) }
{
    let top_left = grid_alignment::rotate_gc_top_left(c.u, c.v, c.turn);
    let corners = grid_alignment::cell_rect_corners_at(c.u, c.v, px_per_square);
    [
        c.cell,
        c.id,
        top_left.u.cast_unsigned(),
        top_left.v.cast_unsigned(),
        (c.turn % 4) as u32,
        matcher::differing_bits(read, c.code),
        (read % 0x1_0000_0000) as u32,
        (read / 0x1_0000_0000) as u32,
        floats::to_bits(quotient),
        floats::to_bits(c.fraction),
        floats::to_bits(corners[0][0]),
        floats::to_bits(corners[0][1]),
        floats::to_bits(corners[1][0]),
        floats::to_bits(corners[1][1]),
        floats::to_bits(corners[2][0]),
        floats::to_bits(corners[2][1]),
        floats::to_bits(corners[3][0]),
        floats::to_bits(corners[3][1]),
    ]
}

// The mean log-likelihood per bit, the argument of upstream's sigmoid.
fn quotient(score: f32, bits: u8) -> f32
    ensures { result ≡ div binary32 score (of_int binary32 (pos (bits * bits))) }
{
    let n = bits as u32;
    score / (n * n) as f32
}

// Writes the words of the candidate's marker, if the cell has weight above 0 and evidence above 0, from index `at` on. Returns the index after them.
pub fn emit_marker(
    c: Candidate,
    grid: &[u8],
    inputs: Inputs,
    table: &[f32; 511],
    markers: &mut [u32],
    at: usize,
) -> usize
    requires bits_bound { inputs.board.bits ≤ 8 }
    requires grid_len { length grid.now ≡ grid_size inputs.board.bits inputs.board.border_bits }
    requires c_in_bounds { at + length (flat_map marker_words (emitted_from inputs.config table.now (samples_in inputs c.threshold grid.now) c)) ≤ length markers.old }
    ensures { Put markers.old markers.new at result
        (flat_map marker_words (emitted_from inputs.config table.now (samples_in inputs c.threshold grid.now) c)) }
{
    let config = inputs.config;
    let bits = inputs.board.bits;
    let border = inputs.board.border_bits;
    let weight = score_matrix::cell_weight(config, Some(c.fraction));
    if !(0.0 < weight) {
        return at;
    }
    let score = cell::score(table, grid, c.threshold, bits, border, c.code);
    if !(0.0 < score_matrix::evidence(score, bits)) {
        return at;
    }
    let read = cell::read_code(grid, c.threshold, bits, border);
    let marker = marker_words(c, read, quotient(score, bits), config.px_per_square);
    lent_list::put(markers, at, &marker)
}
