// Fills the array of scores that the search by look-up takes (document 02, 2.6): one f32 for each cell, marker and turn, eight cells side by side.

#![tactic(auto)]

ghost use Rattle.std.specs.Prelude.{◌≡◌, ℕ, ◌+◌, ◌*◌, ◌<◌, ◌≤◌, leb, length, get_or};
ghost use Rattle.std.specs.Float.{nan};
ghost use Rattle.floats.specs.Units.{nought};
ghost use Rattle.lent_list.specs.Front.{in_front};
ghost use Rattle.lent_list.specs.Scattered.{Wrote};
ghost use Rattle.board.specs.Layout.{marker_total};
ghost use Rattle.score_matrix.specs.Rows.{Adds, Column, FourSources};
ghost use Rattle.shot_record.specs.Shots.{shot};
ghost use Rattle.hypothesis.specs.Placements.{cell_total};
ghost use Rattle.hypothesis.specs.Evidence.{table_of};
ghost use Rattle.hypothesis.specs.ScoreList.{score_list, score_count};
ghost use Rattle.score_list.specs.Filling.{adds_of, LaneIn, lane_place, lane_sum, SpotIn, spot_place, spot_score};

use board::Board;
use hypothesis::{Inputs, LoadedShot};
use score_matrix::{cell, rows};
use shot_record::index;

// Question 24: has the array an element for each cell, marker and turn?
pub fn has_room(inputs: Inputs, places: usize) -> bool
    requires { (inputs.cells ≤ 256) × (marker_total inputs.board ≤ 512) }
    ensures { result ≡ leb (inputs.cells * marker_total inputs.board * 4) places }
{
    let board = inputs.board;
    let markers = board.marker_count() as usize;
    inputs.cells * markers * 4 <= places
}

// Sets what the bits add to 0.
fn clear(adds: &mut [f32; 128])
    ensures { Wrote nan (λ (i : ℕ). i < 128) (λ (i : ℕ). i) (λ (i : ℕ). nought) adds.old adds.new }
{
    for i in 0..128 {
        adds[i] = 0.0;
    }
}

// What the bits of a code add to the scores of cell k: 0 if it is unsampled, so that its scores are 0. Writes to an array of the caller, so that none
// is copied.
fn cell_adds(adds: &mut [f32; 128], loaded: &LoadedShot<'_>, k: usize)
    requires { k < cell_total (shot loaded.now.bytes.now) }
    ensures { Adds (adds_of (shot loaded.now.bytes.now) k) (loaded.now.inputs.board.bits * loaded.now.inputs.board.bits)
        adds.new }
{
    let inputs = loaded.inputs;
    let board = inputs.board;
    match index::border(loaded.index, k) {
        None => clear(adds),
        Some(_) => {
            let grid = index::grid(loaded.bytes, inputs.grid_size, loaded.index, k);
            let threshold = index::threshold(loaded.index, k);
            cell::bit_likelihoods(
                adds,
                loaded.table,
                grid,
                threshold,
                board.bits,
                board.border_bits,
            );
        }
    }
}

// The rows of up to eight cells from `first` on: each cell is a column.
fn fill_rows(rows: &mut [f32; 1024], loaded: &LoadedShot<'_>, first: usize, count: usize)
    requires { (first + count ≤ cell_total (shot loaded.now.bytes.now)) × (count ≤ 8) }
    ensures { (x : ℕ) → x < count → Column (adds_of (shot loaded.now.bytes.now) (first + x))
        (loaded.now.inputs.board.bits * loaded.now.inputs.board.bits) rows.new x }
{
    let board = loaded.inputs.board;
    let n = (board.bits as usize) * (board.bits as usize);
    let mut adds: [f32; 128] = [0.0; 128];
    for x in 0..count {
        cell_adds(&mut adds, loaded, first + x);
        rows::put_column(rows, &adds, 2 * n, x);
    }
}

// The scores of lane x after the four turns.
fn put_four(scores: &mut [f32], sums: &[f32; 32], at: usize, x: usize)
    requires { (x < 8) × (at + 4 ≤ length scores.old) }
    ensures { Wrote nan (λ (r : ℕ). r < 4) (λ (r : ℕ). at + r) (λ (r : ℕ). get_or sums.now (8 * r + x) nan) scores.old
        scores.new }
{
    scores[at] = sums[x];
    scores[at + 1] = sums[8 + x];
    scores[at + 2] = sums[16 + x];
    scores[at + 3] = sums[24 + x];
}

// The scores of marker m after the four turns, for the cells from `first` on. They are stored straight from the sums: with a second local array in
// between the compiler makes no vector additions.
fn put_cells(
    scores: &mut [f32],
    sums: &[f32; 32],
    markers: usize,
    m: usize,
    first: usize,
    count: usize,
)
    requires { (m < markers) × (count ≤ 8) × ((first + count) * markers * 4 ≤ length scores.old) }
    ensures { Wrote nan (LaneIn count) (lane_place markers first m) (lane_sum sums.now) scores.old scores.new }
{
    for x in 0..count {
        put_four(scores, sums, ((first + x) * markers + m) * 4, x);
    }
}

// The scores of all markers, for the cells from `first` on.
fn fill_block(
    scores: &mut [f32],
    rows: &[f32; 1024],
    sources: &[u8; 256],
    board: Board,
    codes: &[u64; 512],
    first: usize,
    count: usize,
)
    requires { (board.bits ≤ 8) × FourSources board.bits (board.bits * board.bits) sources.now × (marker_total board ≤ 512) × (count ≤ 8)
        × ((first + count) * marker_total board * 4 ≤ length scores.old) }
    ensures { Wrote nan (SpotIn (marker_total board) count) (spot_place (marker_total board) first)
        (spot_score rows.now sources.now board.bits codes.now) scores.old scores.new }
{
    let markers = board.marker_count() as usize;
    for m in 0..markers {
        let sums = rows::sum_turns(rows, sources, board.bits, codes[m]);
        put_cells(scores, &sums, markers, m, first, count);
    }
}

// Writes the scores to the start of the array. Elements after them do not change.
pub fn fill(scores: &mut [f32], loaded: &LoadedShot<'_>)
    requires { score_count (shot loaded.now.bytes.now) ≤ length scores.old }
    ensures { scores.new ≡ in_front (score_list (shot loaded.now.bytes.now)) scores.old }
{
    let board = loaded.inputs.board;
    let cells = loaded.inputs.cells;
    let sources = rows::four_sources(board.bits);
    let mut lanes: [f32; 1024] = [0.0; 1024];
    for block in 0..cells.div_ceil(8) {
        let first = 8 * block;
        let count = 8.min(cells - first);
        fill_rows(&mut lanes, loaded, first, count);
        fill_block(scores, &lanes, &sources, board, loaded.codes, first, count);
    }
}
