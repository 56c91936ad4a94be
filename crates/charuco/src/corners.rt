// The corner entry point.
ghost use Rattle.std.specs.Prelude.{◌≡◌};
ghost use Rattle.corner_mapping.specs.Entry.{map_corners, map_corners_list};
ghost use Rattle.charuco.specs.Answers.{Tells, count_told};
ghost use Rattle.charuco.specs.Entries.{spec_from, turn_byte, alignment_of};

use super::{boards, values};
use grid_alignment::GridAlignment;

// A turn above 3 becomes 4, which fails question 18.
fn turn_byte(turn: u32) -> u8
    ensures { result ≡ turn_byte turn }
{
    if turn < 4 {
        return turn as u8;
    }
    4
}

fn alignment(turn: u32, tx: i32, ty: i32) -> GridAlignment
    ensures { result ≡ alignment_of turn tx ty }
{
    GridAlignment {
        turn: turn_byte(turn),
        tx,
        ty,
    }
}

pub fn charuco_map_charuco_corners(
    rows: u32,
    cols: u32,
    bits: u32,
    border_bits: u32,
    legacy_pattern: u32,
    cell_size: f32,
    marker_size_rel: f32,
    codes: &[u64],
    scores: &[f32],
    grid: &[i32],
    turn: u32,
    tx: i32,
    ty: i32,
    corners: &mut [u32],
    values: &mut [u32],
) -> u32
    ensures answer { Tells (count_told (map_corners (spec_from rows cols bits border_bits legacy_pattern cell_size marker_size_rel) codes.now
        scores.now
        grid.now (alignment_of turn tx ty) corners.old)) result values.old values.new }
    ensures list { corners.new
        ≡ map_corners_list (spec_from rows cols bits border_bits legacy_pattern cell_size marker_size_rel) codes.now scores.now
        grid.now (alignment_of turn tx ty) corners.old }
{
    let spec = boards::spec(
        rows,
        cols,
        bits,
        border_bits,
        legacy_pattern,
        cell_size,
        marker_size_rel,
    );
    let alignment = alignment(turn, tx, ty);
    let answer = corner_mapping::map_charuco_corners(spec, codes, scores, grid, alignment, corners);
    values::counted(values, answer)
}
