// Rotates grid points by multiples of 90° and applies grid alignments (grid_alignment.rs; `rotate_gc_top_left` of emit.rs).
// A grid point is two i16, as in the record; results are i32, as upstream's `Coord`.

#![tactic(auto)]

ghost use Rattle.std.specs.Prelude.{◌≡◌};
ghost use Rattle.grid_alignment.specs.Alignment.{point, sends, matrix_of, corner, rect_corners};

pub mod alignments;

#[derive(Clone, Copy)]
pub struct Coord {
    pub u: i32,
    pub v: i32,
}

// A turn (rotation by 90° × turn), then a translation: of cells or of corners.
#[derive(Clone, Copy)]
pub struct GridAlignment {
    pub turn: u8,
    pub tx: i32,
    pub ty: i32,
}

// Maps (u, v) to (a u + b v, c u + d v).
#[derive(Clone, Copy)]
pub struct Matrix {
    pub a: i32,
    pub b: i32,
    pub c: i32,
    pub d: i32,
}

const TURNS: [[i32; 4]; 4] = [[1, 0, 0, 1], [0, 1, -1, 0], [-1, 0, 0, -1], [0, -1, 1, 0]];

pub fn turn_matrix(turn: u8) -> Matrix
    ensures { result ≡ matrix_of turn }
{
    let r = (turn % 4) as usize;
    let row = TURNS[r];
    Matrix {
        a: row[0],
        b: row[1],
        c: row[2],
        d: row[3],
    }
}

pub fn turned(turn: u8, u: i16, v: i16) -> Coord
    ensures { result ≡ sends turn (point u v) }
{
    let m = turn_matrix(turn);
    Coord {
        u: integers::combine(m.a, m.b, u, v),
        v: integers::combine(m.c, m.d, u, v),
    }
}

// The corner of a cell that the turn makes its top left one.
pub fn rotate_gc_top_left(u: i16, v: i16, turn: u8) -> Coord
    ensures { result ≡ corner turn (point u v) }
{
    let x = u as i32;
    let y = v as i32;
    let rot = turn % 4;
    match rot {
        0 => Coord { u: x, v: y },
        1 => Coord { u: x + 1, v: y },
        2 => Coord { u: x + 1, v: y + 1 },
        _ => Coord { u: x, v: y + 1 },
    }
}

// The corners of a cell in the rectified image, where a cell is `px_per_cell` wide: top left, top right, bottom right,
// bottom left.
pub fn cell_rect_corners_at(u: i16, v: i16, px_per_cell: f32) -> [[f32; 2]; 4]
    ensures { result ≡ rect_corners u v px_per_cell }
{
    let x0 = u as f32 * px_per_cell;
    let y0 = v as f32 * px_per_cell;
    let s = px_per_cell;
    [[x0, y0], [x0 + s, y0], [x0 + s, y0 + s], [x0, y0 + s]]
}
