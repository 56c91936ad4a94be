// The corner entry point: maps input corners to inner corners of the board, per id the one of greatest score (corner_mapping.rs).

#![tactic(auto)]

ghost use Rattle.std.specs.Prelude.{◌≡◌, ◌≤◌};
ghost use Rattle.corner_mapping.specs.Entry.{alignment_answer, corner_range_answer, input, mapped_on, list_on, map_corners, map_corners_list};

mod choice;
mod words;

use board::{Board, CharucoBoardSpec};
use choice::CornerInput;
use grid_alignment::GridAlignment;
use marker_sampling::questions;
use refusal::Refusal;

// Question 18 of the alignment: turn 0 to 3, translation from −8,192 to 8,192?
fn alignment_in_range(alignment: GridAlignment) -> bool
    ensures { result ≡ alignment_answer alignment }
{
    alignment.turn < 4
        && questions::within(8192, alignment.tx)
        && questions::within(8192, alignment.ty)
}

// Question 18.
fn in_range(scores: &[f32], grid: &[i32], alignment: GridAlignment) -> bool
    ensures { result ≡ corner_range_answer scores.now grid.now alignment }
{
    marker_sampling::corners_in_range(scores, grid) && alignment_in_range(alignment)
}

// The questions after the board's, then the mapping.
fn map_onto(
    board: Board,
    scores: &[f32],
    grid: &[i32],
    alignment: GridAlignment,
    corners: &mut [u32],
) -> Result<usize, Refusal>
    requires { (board.rows ≤ 32) × (board.cols ≤ 32) }
    ensures answer { result ≡ mapped_on (input board alignment scores.now grid.now) corners.old }
    ensures list { corners.new ≡ list_on (input board alignment scores.now grid.now) corners.old }
{
    if !in_range(scores, grid, alignment) {
        return Err(Refusal::CornersOutOfRange);
    }
    let count = board.corner_count() as usize;
    if corners.len() < 6 * count {
        return Err(Refusal::ListTooShort);
    }
    let input = CornerInput {
        board,
        alignment,
        scores,
        grid,
    };
    let choices = input.choose();
    let end = words::put_all(board, &choices, corners);
    Ok(end / 6)
}

// Writes the mapped inner corners by increasing id, six words each, to the start of the output array, and returns their number; on a refusal the
// array is unchanged.
// `alignment` is that of the corners.
pub fn map_charuco_corners(
    spec: CharucoBoardSpec,
    codes: &[u64],
    scores: &[f32],
    grid: &[i32],
    alignment: GridAlignment,
    corners: &mut [u32],
) -> Result<usize, Refusal>
    ensures answer { result ≡ map_corners spec codes.now scores.now grid.now alignment corners.old }
    ensures list { corners.new
        ≡ map_corners_list spec codes.now scores.now grid.now alignment corners.old }
{
    let board = Board::new(spec, codes)?;
    map_onto(board, scores, grid, alignment, corners)
}
