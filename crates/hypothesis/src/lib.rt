// Searches all placements of the observed cells on the board for the one with the greatest evidence (hypothesis.rs).

#![tactic(auto)]

mod capacity;
mod counting;
mod fill;
mod framing;
mod loaded;
pub mod lookups;
pub mod search;
mod sums;
mod turns;

use board::Board;
pub use loaded::LoadedShot;
use ranking::Hypothesis;
use score_matrix::BoardMatchConfig;

// The inputs of the search beside the index of the cells, computed from the record once. `grid_size` is the number of bytes in a cell's grid.
#[derive(Clone, Copy)]
pub struct Inputs {
    pub cells: usize,
    pub grid_size: usize,
    pub board: Board,
    pub config: BoardMatchConfig,
}

// The bounding box of the rotated cells: least u and v, width and height in squares.
#[derive(Clone, Copy)]
pub struct Frame {
    pub u: i32,
    pub v: i32,
    pub width: usize,
    pub height: usize,
}

// The best placement, its runner-up, the number of placements, and the margin.
#[derive(Clone, Copy)]
pub struct Selection {
    pub best: Hypothesis,
    pub runner_up: Option<Hypothesis>,
    pub total: usize,
    pub margin: f32,
}
