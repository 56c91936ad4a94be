// Checks a ChArUco board's specification and codes (questions 1 to 8 and 22) and computes its layout by formulas (board.rs).

#![tactic(auto)]

ghost use Rattle.std.specs.Prelude.{◌≡◌};
ghost use Rattle.board.specs.Questions.{sized_board, new_board};

mod layout;
pub mod questions;
pub mod squares;

use refusal::Refusal;

// The specification of a board. `bits` is the side of its codes; `legacy_pattern` is the legacy flag, for boards from before OpenCV 4.6.
#[derive(Clone, Copy)]
pub struct CharucoBoardSpec {
    pub rows: u32,
    pub cols: u32,
    pub bits: u32,
    pub border_bits: u32,
    pub legacy_pattern: bool,
    pub cell_size: f32,
    pub marker_size_rel: f32,
}

// A board that passed the questions. Its methods accept every board value.
#[derive(Clone, Copy)]
pub struct Board {
    pub rows: u8,
    pub cols: u8,
    pub bits: u8,
    pub border_bits: u8,
    pub legacy_pattern: bool,
    pub cell_size: f32,
    pub marker_size_rel: f32,
}

// Column and row of a square or of a board corner.
#[derive(Clone, Copy)]
pub struct Position {
    pub i: u32,
    pub j: u32,
}

// A point of the board's plane.
#[derive(Clone, Copy)]
pub struct ObjectPoint {
    pub x: f32,
    pub y: f32,
}

// The ids of the four inner corners around a marker.
#[derive(Clone, Copy)]
pub struct Surrounding {
    pub top_left: u32,
    pub top_right: u32,
    pub bottom_right: u32,
    pub bottom_left: u32,
}

impl Board {
    // The questions 1 to 7, which need only the number of codes.
    #[tactic(auto, unfolding(crate::specs::Questions::asked_of_size))]
    pub fn sized(spec: CharucoBoardSpec, count: usize) -> Result<Board, Refusal>
        ensures { result ≡ sized_board spec count }
    {
        if !questions::size(spec.rows, spec.cols) {
            return Err(Refusal::InvalidSize);
        }
        if !questions::cell_size(spec.cell_size) {
            return Err(Refusal::InvalidCellSize);
        }
        if !questions::marker_size_rel(spec.marker_size_rel) {
            return Err(Refusal::InvalidMarkerSizeRel);
        }
        if spec.border_bits < 1 {
            return Err(Refusal::InvalidBorderBits);
        }
        if count == 0 {
            return Err(Refusal::EmptyDictionary);
        }
        if !questions::range(spec, count) {
            return Err(Refusal::BoardOutOfRange);
        }
        let board = questions::board_of(spec);
        let needed = board.marker_count();
        let available = count as u32;
        if available < needed {
            return Err(Refusal::NotEnoughDictionaryCodes { needed, available });
        }
        Ok(board)
    }

    // A board from its specification and codes, or the first question that fails.
    pub fn new(spec: CharucoBoardSpec, codes: &[u64]) -> Result<Board, Refusal>
        ensures { result ≡ new_board spec codes.now }
    {
        let board = Board::sized(spec, codes.len())?;
        questions::judged(board, questions::codes(board.bits, codes), codes)
    }
}
