// The functions of `oracle_exports`, exported to C for the oracle.

#![tactic(auto)]

ghost use Rattle.std.specs.Prelude.{◌≡◌, ◌%◌, cond, length, get_or, T};
ghost use Rattle.matcher.specs.Codes.{turned_word, differing};
ghost use Rattle.grid_alignment.specs.Alignment.{point, sends, corner};
ghost use Rattle.board.specs.Layout.{marker_total, marker_on, marker_square, corner_at, corner_place, object_point, surrounding_corners};
ghost use Rattle.oracle_exports.specs.Words.{axis_of, corner_translation, rect_corner, unit_size, board_with, id_word, place_word};
ghost use Rattle.oracle_exports.specs.Words.{axis_of_point, four_word, whole_grid, ScoresWritten, border_sample, weight_settings};
ghost use Rattle.std.specs.Float.{nan, binary32};
ghost use Rattle.std.specs.Float.Ieee.{sub};
ghost use Rattle.floats.specs.Units.{nought};
ghost use Rattle.board.specs.Numbering.{as_one};
ghost use Rattle.score_matrix.specs.Table.{is_table, built_in};
ghost use Rattle.score_matrix.specs.Scores.{samples, score, null_score, read_code};
ghost use Rattle.score_matrix.specs.Weights.{weight};

#[unsafe(no_mangle)]
pub extern "C" fn oracle_rotate_code_u64(code: u64, n: u8, turn: u8) -> u64
    ensures { result ≡ turned_word n turn code }
{
    oracle_exports::oracle_rotate_code_u64(code, n, turn)
}

#[unsafe(no_mangle)]
pub extern "C" fn oracle_differing_bits(a: u64, b: u64) -> u32
    ensures { result ≡ differing 64 a b }
{
    oracle_exports::oracle_differing_bits(a, b)
}

#[unsafe(no_mangle)]
pub extern "C" fn oracle_turned(turn: u8, u: i16, v: i16, axis: u8) -> i32
    ensures { result ≡ axis_of (sends turn (point u v)) axis }
{
    oracle_exports::oracle_turned(turn, u, v, axis)
}

#[unsafe(no_mangle)]
pub extern "C" fn oracle_rotate_gc_top_left(turn: u8, u: i16, v: i16, axis: u8) -> i32
    ensures { result ≡ axis_of (corner turn (point u v)) axis }
{
    oracle_exports::oracle_rotate_gc_top_left(turn, u, v, axis)
}

#[unsafe(no_mangle)]
pub extern "C" fn oracle_corner_translation(turn: u8, tx: i16, ty: i16, axis: u8) -> i32
    ensures { result ≡ axis_of (corner_translation turn tx ty) axis }
{
    oracle_exports::oracle_corner_translation(turn, tx, ty, axis)
}

// Corners 0 to 3 are top left, top right, bottom right, bottom left.
#[unsafe(no_mangle)]
pub extern "C" fn oracle_cell_rect_corner(u: i16, v: i16, px: f32, corner: u8, axis: u8) -> f32
    ensures { result ≡ rect_corner u v px (corner % 4) (axis % 2) }
{
    oracle_exports::oracle_cell_rect_corner(u, v, px, corner, axis)
}

#[unsafe(no_mangle)]
pub extern "C" fn oracle_marker_count(rows: u8, cols: u8, legacy: u32) -> u64
    ensures { result ≡ marker_total (board_with rows cols legacy unit_size) }
{
    oracle_exports::oracle_marker_count(rows, cols, legacy)
}

#[unsafe(no_mangle)]
pub extern "C" fn oracle_marker_id_at(rows: u8, cols: u8, legacy: u32, i: i32, j: i32) -> u64
    ensures { result ≡ id_word (marker_on (board_with rows cols legacy unit_size) i j) }
{
    oracle_exports::oracle_marker_id_at(rows, cols, legacy, i, j)
}

#[unsafe(no_mangle)]
pub extern "C" fn oracle_marker_position(rows: u8, cols: u8, legacy: u32, id: u32) -> u64
    ensures { result ≡ place_word (marker_square (board_with rows cols legacy unit_size) id) }
{
    oracle_exports::oracle_marker_position(rows, cols, legacy, id)
}

#[unsafe(no_mangle)]
pub extern "C" fn oracle_corner_id(rows: u8, cols: u8, legacy: u32, i: i32, j: i32) -> u64
    ensures { result ≡ id_word (corner_at rows cols i j) }
{
    oracle_exports::oracle_corner_id(rows, cols, legacy, i, j)
}

#[unsafe(no_mangle)]
pub extern "C" fn oracle_corner_position(rows: u8, cols: u8, legacy: u32, id: u32) -> u64
    ensures { result ≡ place_word (corner_place rows cols id) }
{
    oracle_exports::oracle_corner_position(rows, cols, legacy, id)
}

// NaN for an unknown id.
#[unsafe(no_mangle)]
pub extern "C" fn oracle_object_xy(
    rows: u8,
    cols: u8,
    legacy: u32,
    cell_size: f32,
    id: u32,
    axis: u8,
) -> f32
    ensures { result ≡ axis_of_point (object_point rows cols cell_size id) axis }
{
    oracle_exports::oracle_object_xy(rows, cols, legacy, cell_size, id, axis)
}

// Corners 0 to 3 are top left, top right, bottom right, bottom left.
#[unsafe(no_mangle)]
pub extern "C" fn oracle_surrounding_corner(
    rows: u8,
    cols: u8,
    legacy: u32,
    marker: u32,
    corner: u8,
) -> u64
    ensures { result ≡ four_word (surrounding_corners (board_with rows cols legacy unit_size) marker) (corner % 4) }
{
    oracle_exports::oracle_surrounding_corner(rows, cols, legacy, marker, corner)
}

// NaN past the table.
#[unsafe(no_mangle)]
pub extern "C" fn oracle_table_entry(i: usize) -> f32
    ensures { result ≡ get_or built_in i nan }
{
    oracle_exports::oracle_table_entry(i)
}

#[unsafe(no_mangle)]
pub extern "C" fn oracle_is_table(table: &[f32]) -> u8
    ensures { result ≡ as_one (is_table table.now) }
{
    oracle_exports::oracle_is_table(table)
}

#[unsafe(no_mangle)]
pub extern "C" fn oracle_cell_weight(
    border_threshold: f32,
    least_weight: f32,
    sampled: bool,
    fraction: f32,
) -> f32
    ensures { result ≡ weight (weight_settings border_threshold least_weight) (border_sample sampled fraction) }
{
    oracle_exports::oracle_cell_weight(border_threshold, least_weight, sampled, fraction)
}

#[unsafe(no_mangle)]
pub extern "C" fn oracle_null_score(bits: u8) -> f32
    ensures { result ≡ null_score bits }
{
    oracle_exports::oracle_null_score(bits)
}

#[unsafe(no_mangle)]
pub extern "C" fn oracle_evidence(score: f32, bits: u8) -> f32
    ensures { result ≡ sub binary32 score (null_score bits) }
{
    oracle_exports::oracle_evidence(score, bits)
}

#[unsafe(no_mangle)]
pub extern "C" fn oracle_score(
    table: &[f32; 511],
    grid: &[u8],
    threshold: u8,
    bits: u8,
    border: u8,
    code: u64,
) -> f32
    ensures { result ≡ cond (whole_grid (length grid.now) bits border)
        (score table.now (samples bits border threshold grid.now) code) nought }
{
    oracle_exports::oracle_score(table, grid, threshold, bits, border, code)
}

#[unsafe(no_mangle)]
pub extern "C" fn oracle_read_code(grid: &[u8], threshold: u8, bits: u8, border: u8) -> u64
    ensures { result ≡ cond (whole_grid (length grid.now) bits border) (read_code (samples bits border threshold grid.now)) 0 }
{
    oracle_exports::oracle_read_code(grid, threshold, bits, border)
}

#[unsafe(no_mangle)]
pub extern "C" fn oracle_cell_scores(
    table: &[f32; 511],
    grid: &[u8],
    threshold: u8,
    bits: u8,
    border: u8,
    codes: &[u64],
    out: &mut [f32],
)
    ensures { T (whole_grid (length grid.now) bits border)
        → ScoresWritten (score table.now (samples bits border threshold grid.now)) codes.now out.old
        out.new }
{
    oracle_exports::oracle_cell_scores(table, grid, threshold, bits, border, codes, out)
}
