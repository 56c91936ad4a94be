// The sums of all placements of one turn, over the cells in record order, with scores computed from the cells' grids.
ghost use Rattle.std.specs.Prelude.{◌≡◌, true, ◌*◌, ◌<◌, ◌≤◌};
ghost use Rattle.std.specs.Float.{nan};
ghost use Rattle.std.specs.Float.Ieee.{lt};
ghost use Rattle.floats.specs.Units.{nought};
ghost use Rattle.lent_list.specs.Parts.{KeptFrom};
ghost use Rattle.score_matrix.specs.Likelihoods.{HoldsLikelihoods};
ghost use Rattle.shot_record.specs.Shots.{shot};
ghost use Rattle.hypothesis.specs.Placements.{cell_total};
ghost use Rattle.hypothesis.specs.Evidence.{table_of, weight_of, samples_of};
ghost use Rattle.hypothesis.specs.Sums.{code_score, Stays, Small};
ghost use Rattle.hypothesis.specs.Turns.{Summed, turn_of};
ghost use Rattle.hypothesis.specs.Filling.{Counts};

use super::framing::Turn;
use super::sums::Counted;
use super::turns::Contributing;
use super::{LoadedShot, counting, sums};
use score_matrix::{cell, turned};
use shot_record::index;

// What each bit of a code adds to the scores of a cell with weight above 0.
fn likelihoods(adds: &mut [f32; 128], loaded: &LoadedShot<'_>, k: usize, weight: f32)
    requires { (k < cell_total (shot loaded.now.bytes.now)) × (weight ≡ weight_of (shot loaded.now.bytes.now) k) }
    ensures holds { lt nought weight ≡ true → HoldsLikelihoods (table_of (shot loaded.now.bytes.now))
        (samples_of (shot loaded.now.bytes.now) k) (loaded.now.inputs.board.bits * loaded.now.inputs.board.bits) adds.new }
    ensures rest { KeptFrom nan (2 * (loaded.now.inputs.board.bits * loaded.now.inputs.board.bits)) adds.old adds.new }
{
    if !(0.0 < weight) {
        return;
    }
    let inputs = loaded.inputs;
    let board = inputs.board;
    let grid = index::grid(loaded.bytes, inputs.grid_size, loaded.index, k);
    let threshold = index::threshold(loaded.index, k);
    cell::bit_likelihoods(
        adds,
        loaded.table,
        grid,
        threshold,
        board.bits,
        board.border_bits,
    );
}

// Adds a cell if its weight is above 0.
fn add_counted(
    sums: &mut [f32; 1024],
    contributing: Contributing,
    cell: Counted,
    t: Turn,
    adds: &[f32; 128],
    sources: &[u8; 64],
    codes: &[u64; 512],
) -> Contributing
    requires { Stays cell t.across t.down × Small (cell.board.bits * cell.board.bits) sources.now × (t.across * t.down ≤ 1024)
        × (contributing.even < 256) × (contributing.odd < 256) }
    ensures { Counts cell (code_score cell.board.bits adds.now sources.now codes.now) t.across t.down
        sums.old sums.new contributing result }
{
    if !(0.0 < cell.weight) {
        return contributing;
    }
    sums::add_cell(sums, cell, t.across, t.down, adds, sources, codes);
    counting::with_counted(contributing, cell)
}

// `ScoreArray::fill` has the same loop. What is prepared for a turn and for a cell differs, so one loop would need a trait of two more functions with
// state: no plainer.
// The sums of a turn over all cells in order, and the counts of contributing cells. A turn without moves has no placement.
pub fn fill(sums: &mut [f32; 1024], loaded: &LoadedShot<'_>, t: Turn) -> Contributing
    requires { t ≡ turn_of (shot loaded.now.bytes.now) t.turn }
    ensures { Summed (shot loaded.now.bytes.now) t.turn sums.new result }
{
    let mut contributing = Contributing { even: 0, odd: 0 };
    let moves = t.across * t.down;
    if moves == 0 {
        return contributing;
    }
    sums::clear(sums, moves);
    let inputs = loaded.inputs;
    let sources = turned::source_bits(inputs.board.bits, t.turn);
    let mut adds: [f32; 128] = [0.0; 128];
    for k in 0..inputs.cells {
        let cell = counting::counted(inputs, t, loaded.index, k);
        likelihoods(&mut adds, loaded, k, cell.weight);
        contributing = add_counted(sums, contributing, cell, t, &adds, &sources, loaded.codes);
    }
    contributing
}
