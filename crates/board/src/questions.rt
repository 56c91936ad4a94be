// The questions 1 to 8 of document 01 and 22 of document 02 that are more than one comparison, and the board that passed them.
ghost use Rattle.std.specs.Prelude.{◌≡◌, ◌≤◌, min, not};
ghost use Rattle.board.specs.Questions.{size_answer, cell_size_answer, marker_size_answer, range_answer, code_in_range, codes_answer, board_of, judged_by};
ghost use Rattle.alike.specs.Alike.{two_alike};
ghost use Rattle.board.specs.Layout.{marker_total};

use super::{Board, CharucoBoardSpec};
use refusal::Refusal;

pub fn size(rows: u32, cols: u32) -> bool
    ensures { result ≡ size_answer rows cols }
{
    2 <= rows && 2 <= cols
}

pub fn cell_size(x: f32) -> bool
    ensures { result ≡ cell_size_answer x }
{
    floats::is_finite(x) && 0.0 < x
}

pub fn marker_size_rel(x: f32) -> bool
    ensures { result ≡ marker_size_answer x }
{
    cell_size(x) && x <= 1.0
}

pub fn range(spec: CharucoBoardSpec, codes: usize) -> bool
    ensures { result ≡ range_answer spec codes }
{
    spec.rows <= 32
        && spec.cols <= 32
        && spec.border_bits <= 4
        && 1 <= spec.bits
        && spec.bits <= 8
        && codes <= 1024
}

// Is the code below 2^(bits²)?
pub fn code(bits: u8, code: u64) -> bool
    ensures { result ≡ code_in_range bits code }
{
    let area = u32::from(bits) * u32::from(bits);
    code.checked_shr(area).unwrap_or(0) == 0
}

// Question 8: is every code?
pub fn codes(bits: u8, codes: &[u64]) -> bool
    ensures { result ≡ codes_answer bits codes.now }
{
    codes.iter().all(|&each| code(bits, each))
}

// The questions 8 and 22 of a board that passed those before: `in_range` is the result of 8, and 22 checks the codes, those of the markers
// being first.
pub fn judged(board: Board, in_range: bool, codes: &[u64]) -> Result<Board, Refusal>
    requires { (1 ≤ board.bits) × (board.bits ≤ 8) }
    ensures { result ≡ judged_by in_range (not (two_alike board.bits codes.now (min (marker_total board) 512))) board }
{
    if !in_range {
        return Err(Refusal::CodeOutOfRange);
    }
    if !alike::none_alike(board.bits, codes, board.marker_count() as usize) {
        return Err(Refusal::CodesAlike);
    }
    Ok(board)
}

pub fn board_of(spec: CharucoBoardSpec) -> Board
    requires { (spec.rows ≤ 32) × (spec.cols ≤ 32) × (spec.bits ≤ 8) × (spec.border_bits ≤ 4) }
    ensures { result ≡ board_of spec }
{
    Board {
        rows: spec.rows as u8,
        cols: spec.cols as u8,
        bits: spec.bits as u8,
        border_bits: spec.border_bits as u8,
        legacy_pattern: spec.legacy_pattern,
        cell_size: spec.cell_size,
        marker_size_rel: spec.marker_size_rel,
    }
}
