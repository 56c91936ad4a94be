// Applies alignments to grid points and converts those of cells to those of corners; translations must not overflow 32 bits with any point.
ghost use Rattle.std.specs.Prelude.{◌≡◌};
ghost use Rattle.grid_alignment.specs.Alignment.{point, applied, corner_alignment, NearAlignment};

use super::{Coord, GridAlignment};

// The image of a grid point.
pub fn apply(alignment: GridAlignment, u: i16, v: i16) -> Coord
    requires { NearAlignment alignment }
    ensures { result ≡ applied alignment (point u v) }
{
    let p = super::turned(alignment.turn, u, v);
    Coord {
        u: p.u + alignment.tx,
        v: p.v + alignment.ty,
    }
}

pub fn cell_to_corner_alignment(alignment: GridAlignment) -> GridAlignment
    requires { NearAlignment alignment }
    ensures { result ≡ corner_alignment alignment }
{
    let m = super::turn_matrix(alignment.turn);
    let ou = m.a.min(0) + m.b.min(0);
    let ov = m.c.min(0) + m.d.min(0);
    GridAlignment {
        turn: alignment.turn,
        tx: alignment.tx - ou,
        ty: alignment.ty - ov,
    }
}
