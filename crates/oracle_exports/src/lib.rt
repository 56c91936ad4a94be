// For tests only: what no entry point returns by itself, one number each, or all scores of a cell. Every function accepts every number and array.
// `oracle_exports_c` exports these functions to C for the oracle, and `stored_rows` calls them.

#![tactic(auto)]

ghost use Rattle.std.specs.Prelude.{◌≡◌, ◌%◌};
ghost use Rattle.matcher.specs.Codes.{turned_word, differing};
ghost use Rattle.grid_alignment.specs.Alignment.{point, sends, corner};
ghost use Rattle.board.specs.Layout.{marker_total, marker_on, marker_square, corner_at, corner_place, object_point, surrounding_corners};
ghost use Rattle.oracle_exports.specs.Words.{axis_of, corner_translation, rect_corner};
ghost use Rattle.oracle_exports.specs.Words.{unit_size, board_with, id_word, place_word, axis_of_point, four_word};

use board::{Board, Position};
use grid_alignment::{Coord, GridAlignment, alignments};

mod scores;

pub use scores::{
    oracle_cell_scores, oracle_cell_weight, oracle_evidence, oracle_is_table, oracle_null_score,
    oracle_read_code, oracle_score, oracle_table_entry,
};

// No id or no position.
const ABSENT: u64 = 18446744073709551615;

pub fn oracle_rotate_code_u64(code: u64, n: u8, turn: u8) -> u64
    ensures { result ≡ turned_word n turn code }
{
    matcher::rotate_code_u64(code, n, turn)
}

pub fn oracle_differing_bits(a: u64, b: u64) -> u32
    ensures { result ≡ differing 64 a b }
{
    matcher::differing_bits(a, b)
}

// Axis 0 is u, every other one v.
fn along(p: Coord, axis: u8) -> i32
    ensures { result ≡ axis_of p axis }
{
    if axis == 0 {
        return p.u;
    }
    p.v
}

pub fn oracle_turned(turn: u8, u: i16, v: i16, axis: u8) -> i32
    ensures { result ≡ axis_of (sends turn (point u v)) axis }
{
    along(grid_alignment::turned(turn, u, v), axis)
}

pub fn oracle_rotate_gc_top_left(turn: u8, u: i16, v: i16, axis: u8) -> i32
    ensures { result ≡ axis_of (corner turn (point u v)) axis }
{
    along(grid_alignment::rotate_gc_top_left(u, v, turn), axis)
}

pub fn oracle_corner_translation(turn: u8, tx: i16, ty: i16, axis: u8) -> i32
    ensures { result ≡ axis_of (corner_translation turn tx ty) axis }
{
    let cells = GridAlignment {
        turn,
        tx: tx as i32,
        ty: ty as i32,
    };
    let corners = alignments::cell_to_corner_alignment(cells);
    along(
        Coord {
            u: corners.tx,
            v: corners.ty,
        },
        axis,
    )
}

// Corners 0 to 3 are top left, top right, bottom right, bottom left.
pub fn oracle_cell_rect_corner(u: i16, v: i16, px: f32, corner: u8, axis: u8) -> f32
    ensures { result ≡ rect_corner u v px (corner % 4) (axis % 2) }
{
    let corners = grid_alignment::cell_rect_corners_at(u, v, px);
    let k = (corner % 4) as usize;
    let a = (axis % 2) as usize;
    corners[k][a]
}

// A board from its size and legacy flag, 0 for a current board. Its layout depends on nothing else but the cells' size.
fn board_of(rows: u8, cols: u8, legacy: u32, cell_size: f32) -> Board
    ensures { result ≡ board_with rows cols legacy cell_size }
{
    Board {
        rows,
        cols,
        bits: 1,
        border_bits: 1,
        legacy_pattern: legacy != 0,
        cell_size,
        marker_size_rel: 1.0,
    }
}

fn id_word(n: Option<u32>) -> u64
    ensures { result ≡ id_word n }
{
    match n {
        Some(id) => id as u64,
        None => ABSENT,
    }
}

// j × 65536 + i. Both are below 256, so the word determines them.
fn place_word(place: Option<Position>) -> u64
    ensures { result ≡ place_word place }
{
    match place {
        Some(p) => (p.j as u64) * 65536 + (p.i as u64),
        None => ABSENT,
    }
}

pub fn oracle_marker_count(rows: u8, cols: u8, legacy: u32) -> u64
    ensures { result ≡ marker_total (board_with rows cols legacy unit_size) }
{
    board_of(rows, cols, legacy, 1.0).marker_count() as u64
}

pub fn oracle_marker_id_at(rows: u8, cols: u8, legacy: u32, i: i32, j: i32) -> u64
    ensures { result ≡ id_word (marker_on (board_with rows cols legacy unit_size) i j) }
{
    id_word(board_of(rows, cols, legacy, 1.0).marker_id_at(i, j))
}

pub fn oracle_marker_position(rows: u8, cols: u8, legacy: u32, id: u32) -> u64
    ensures { result ≡ place_word (marker_square (board_with rows cols legacy unit_size) id) }
{
    place_word(board_of(rows, cols, legacy, 1.0).marker_position(id))
}

pub fn oracle_corner_id(rows: u8, cols: u8, legacy: u32, i: i32, j: i32) -> u64
    ensures { result ≡ id_word (corner_at rows cols i j) }
{
    id_word(board_of(rows, cols, legacy, 1.0).charuco_corner_id_from_board_corner(i, j))
}

pub fn oracle_corner_position(rows: u8, cols: u8, legacy: u32, id: u32) -> u64
    ensures { result ≡ place_word (corner_place rows cols id) }
{
    place_word(board_of(rows, cols, legacy, 1.0).board_corner(id))
}

// NaN for an unknown id.
pub fn oracle_object_xy(rows: u8, cols: u8, legacy: u32, cell_size: f32, id: u32, axis: u8) -> f32
    ensures { result ≡ axis_of_point (object_point rows cols cell_size id) axis }
{
    let point = board_of(rows, cols, legacy, cell_size).charuco_object_xy(id);
    match point {
        Some(p) => { if axis == 0 { p.x } else { p.y } }
        None => 0.0 / 0.0,
    }
}

// Corners 0 to 3 are top left, top right, bottom right, bottom left.
pub fn oracle_surrounding_corner(rows: u8, cols: u8, legacy: u32, marker: u32, corner: u8) -> u64
    ensures { result ≡ four_word (surrounding_corners (board_with rows cols legacy unit_size) marker) (corner % 4) }
{
    let around = board_of(rows, cols, legacy, 1.0).marker_surrounding_charuco_corners(marker);
    match around {
        Some(four) => match corner % 4 {
            0 => four.top_left as u64,
            1 => four.top_right as u64,
            2 => four.bottom_right as u64,
            _ => four.bottom_left as u64,
        },
        None => ABSENT,
    }
}
