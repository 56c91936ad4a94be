// The id of the marker on a square that is known to be on the board and to have one.
ghost use Rattle.std.specs.Prelude.{◌≡◌, ◌*◌, ◌<◌, pos};
ghost use Rattle.board.specs.Numbering.{number_if};
ghost use Rattle.board.specs.Layout.{parity_of, holds_marker, marker_on};

use super::Board;

// On a square without a marker the result is some number below half of the squares.
pub fn marker_on(board: Board, i: usize, j: usize) -> usize
    requires { (i < board.cols) × (j < board.rows) }
    ensures id { marker_on board (pos i) (pos j) ≡ number_if (holds_marker (parity_of board) i j) result }
    ensures small { 2 * result < board.rows * board.cols }
{
    board.id_on(i, j)
}
