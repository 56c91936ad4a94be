// The frame of a turn, computed by rotating the bounding box of the cells, which is found once; and the moves that keep it on the board.
ghost use Rattle.std.specs.Prelude.{◌≡◌, ◌+◌, ◌-◌, ◌≤◌, ◌<◌};
ghost use Rattle.hypothesis.specs.Extremes.{extremes_with, sides_in, frame_by};
ghost use Rattle.hypothesis.specs.Turns.{turn_with, NearFrame};

use super::Frame;
use board::Board;
use shot_record::index;

#[derive(Clone, Copy)]
pub struct Extremes {
    pub least: i16,
    pub greatest: i16,
}

// The bounding box: the least and the greatest u and v.
#[derive(Clone, Copy)]
pub struct Sides {
    pub u: Extremes,
    pub v: Extremes,
}

// A turn (rotation by 90° × `turn`): the least u and v of its frame, and the number of translations that keep the frame on the board, across and
// down.
#[derive(Clone, Copy)]
pub struct Turn {
    pub turn: u8,
    pub u: i32,
    pub v: i32,
    pub across: usize,
    pub down: usize,
}

fn extremes_with(e: Extremes, x: i16) -> Extremes
    ensures { result ≡ extremes_with e x }
{
    Extremes {
        least: e.least.min(x),
        greatest: e.greatest.max(x),
    }
}

// The bounding box of the first `cells` cells of the index.
pub fn cell_sides(index: &[u32; 768], cells: usize) -> Sides
    requires { (0 < cells) × (cells ≤ 256) }
    ensures { result ≡ sides_in index.now cells }
{
    let first_u = index::u(index, 0);
    let first_v = index::v(index, 0);
    let mut u = Extremes {
        least: first_u,
        greatest: first_u,
    };
    let mut v = Extremes {
        least: first_v,
        greatest: first_v,
    };
    for k in 1..cells {
        u = extremes_with(u, index::u(index, k));
        v = extremes_with(v, index::v(index, k));
    }
    Sides { u, v }
}

// The frame of a turn, from two opposite corners, rotated.
fn frame(sides: Sides, turn: u8) -> Frame
    ensures { result ≡ frame_by turn sides }
{
    let u = sides.u;
    let v = sides.v;
    let p = grid_alignment::turned(turn, u.least, v.least);
    let q = grid_alignment::turned(turn, u.greatest, v.greatest);
    Frame {
        u: p.u.min(q.u),
        v: p.v.min(q.v),
        width: integers::distance(q.u, p.u) + 1,
        height: integers::distance(q.v, p.v) + 1,
    }
}

// The number of positions of so many squares on a board side: 0 if they do not fit.
fn moves(side: u8, squares: usize) -> usize
    ensures { result ≡ side + 1 - squares }
{
    (side as usize + 1).saturating_sub(squares)
}

// A turn, with the numbers of moves of its frame on the board.
pub fn turn_of(board: Board, sides: Sides, turn: u8) -> Turn
    requires { NearFrame (frame_by turn sides) }
    ensures { result ≡ turn_with board (frame_by turn sides) turn }
{
    let frame = frame(sides, turn);
    let across = moves(board.cols, frame.width);
    let down = moves(board.rows, frame.height);
    Turn {
        turn,
        u: frame.u,
        v: frame.v,
        across,
        down,
    }
}
