// The capacity of a placement: the largest evidence that its contributing cells can attain.
ghost use Rattle.std.specs.Prelude.{◌≡◌, ◌≤◌, ◌<◌};
ghost use Rattle.grid_alignment.specs.Alignment.{NearAlignment};
ghost use Rattle.hypothesis.specs.Capacity.{with_marker, with_cell, capacity_to};

use super::Inputs;
use grid_alignment::{GridAlignment, alignments};
use shot_record::index;

// The sum with a cell of the given weight, in which `marker` is expected.
fn with_marker(total: f32, most: f32, weight: f32, marker: Option<u32>) -> f32
    ensures { result ≡ with_marker total most weight marker }
{
    match marker {
        Some(_) if 0.0 < weight => total + weight * most,
        _ => total,
    }
}

// The sum with cell k. An unsampled cell has weight 0 and adds nothing.
fn with_cell(
    total: f32,
    most: f32,
    inputs: Inputs,
    alignment: GridAlignment,
    index: &[u32; 768],
    k: usize,
) -> f32
    requires { NearAlignment alignment × (k < 256) }
    ensures { result ≡ with_cell total most inputs alignment index.now k }
{
    let board = inputs.board;
    let square = alignments::apply(alignment, index::u(index, k), index::v(index, k));
    let weight = score_matrix::cell_weight(inputs.config, index::border(index, k));
    with_marker(total, most, weight, board.marker_id_at(square.u, square.v))
}

// A score is at most 0, so a contributing cell adds at most its weight times minus the null score.
pub fn capacity(inputs: Inputs, index: &[u32; 768], alignment: GridAlignment) -> f32
    requires { (inputs.cells ≤ 256) × NearAlignment alignment }
    ensures { result ≡ capacity_to inputs alignment index.now inputs.cells }
{
    let most = -score_matrix::null_score(inputs.board.bits);
    let mut total: f32 = 0.0;
    for k in 0..inputs.cells {
        total = with_cell(total, most, inputs, alignment, index, k);
    }
    total
}
