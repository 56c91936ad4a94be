// The entry points for C: each function is that of `charuco` of its name, exported. `include/charuco.h` lists them.

#![tactic(auto)]

ghost use Rattle.std.specs.Prelude.{◌≡◌};
ghost use Rattle.marker_sampling.specs.Entry.{marker_cells, marker_cells_list};
ghost use Rattle.charuco.specs.Answers.{Tells, count_told};
ghost use Rattle.charuco.specs.Entries.{spec_from, alignment_of, match_told};
ghost use Rattle.legacy_record.specs.Restating.{restate_answer, restate_list};
ghost use Rattle.corner_mapping.specs.Entry.{map_corners, map_corners_list};
ghost use Rattle.link_check.specs.Entry.{check_links, check_links_list, mode_of};
ghost use Rattle.board_match.specs.Match.{match_answer, match_list};
ghost use Rattle.board_match.specs.Scores.{scored_answer, scored_list, scores_left};
ghost use Rattle.board_match.specs.Accuracy.{Accuracy};
ghost use Rattle.shot_record.specs.Shots.{parse};
ghost use Rattle.shot_record.specs.Answers.{header_answer, entry_answer, code_answer, cell_answer, part_answer, grid_answer};
ghost use Rattle.charuco.specs.Records.{header_told, entry_told, code_told, cell_told, grid_told, Lies};

#[unsafe(no_mangle)]
pub extern "C" fn charuco_build_marker_cells(
    scores: &[f32],
    grid: &[i32],
    inliers: &[usize],
    cells: &mut [i32],
    values: &mut [u32],
) -> u32
    ensures answer { Tells (count_told (marker_cells scores.now grid.now inliers.now cells.old)) result
        values.old values.new }
    ensures list { cells.new ≡ marker_cells_list scores.now grid.now inliers.now cells.old }
{
    charuco::charuco_build_marker_cells(scores, grid, inliers, cells, values)
}

#[unsafe(no_mangle)]
pub extern "C" fn charuco_restate(bytes: &[u8], sheet: &mut [u8], values: &mut [u32]) -> u32
    ensures answer { Tells (count_told (restate_answer bytes.now sheet.old)) result values.old values.new }
    ensures list { sheet.new ≡ restate_list bytes.now sheet.old }
{
    charuco::charuco_restate(bytes, sheet, values)
}

#[unsafe(no_mangle)]
pub extern "C" fn charuco_map_charuco_corners(
    rows: u32,
    cols: u32,
    bits: u32,
    border_bits: u32,
    legacy_pattern: u32,
    cell_size: f32,
    marker_size_rel: f32,
    codes: &[u64],
    scores: &[f32],
    grid: &[i32],
    turn: u32,
    tx: i32,
    ty: i32,
    corners: &mut [u32],
    values: &mut [u32],
) -> u32
    ensures answer { Tells (count_told (map_corners (spec_from rows cols bits border_bits legacy_pattern cell_size marker_size_rel) codes.now
        scores.now
        grid.now (alignment_of turn tx ty) corners.old)) result values.old values.new }
    ensures list { corners.new
        ≡ map_corners_list (spec_from rows cols bits border_bits legacy_pattern cell_size marker_size_rel) codes.now scores.now
        grid.now (alignment_of turn tx ty) corners.old }
{
    charuco::charuco_map_charuco_corners(
        rows,
        cols,
        bits,
        border_bits,
        legacy_pattern,
        cell_size,
        marker_size_rel,
        codes,
        scores,
        grid,
        turn,
        tx,
        ty,
        corners,
        values,
    )
}

#[unsafe(no_mangle)]
pub extern "C" fn charuco_validate_marker_corner_links(
    rows: u32,
    cols: u32,
    bits: u32,
    border_bits: u32,
    legacy_pattern: u32,
    cell_size: f32,
    marker_size_rel: f32,
    codes: &[u64],
    links: &[u32],
    mode: u32,
    violations: &mut [u32],
    values: &mut [u32],
) -> u32
    ensures answer { Tells (count_told (check_links (spec_from rows cols bits border_bits legacy_pattern cell_size marker_size_rel) codes.now
        (mode_of mode)
        links.now violations.old)) result values.old values.new }
    ensures list { violations.new
        ≡ check_links_list (spec_from rows cols bits border_bits legacy_pattern cell_size marker_size_rel) codes.now (mode_of mode)
        links.now violations.old }
{
    charuco::charuco_validate_marker_corner_links(
        rows,
        cols,
        bits,
        border_bits,
        legacy_pattern,
        cell_size,
        marker_size_rel,
        codes,
        links,
        mode,
        violations,
        values,
    )
}

#[unsafe(no_mangle)]
pub extern "C" fn charuco_match_board(bytes: &[u8], markers: &mut [u32], values: &mut [u32]) -> u32
    ensures answer { Tells (match_told (match_answer bytes.now markers.old)) result values.old values.new }
    ensures list { markers.new ≡ match_list bytes.now markers.old }
    ensures accuracy { Accuracy bytes.now (match_answer bytes.now markers.old) }
{
    charuco::charuco_match_board(bytes, markers, values)
}

#[unsafe(no_mangle)]
pub extern "C" fn charuco_match_board_with_scores(
    bytes: &[u8],
    scores: &mut [f32],
    markers: &mut [u32],
    values: &mut [u32],
) -> u32
    ensures answer { Tells (match_told (scored_answer bytes.now scores.old markers.old)) result values.old
        values.new }
    ensures list { markers.new ≡ scored_list bytes.now scores.old markers.old }
    ensures scores { scores.new ≡ scores_left bytes.now scores.old markers.old }
    ensures accuracy { Accuracy bytes.now (scored_answer bytes.now scores.old markers.old) }
{
    charuco::charuco_match_board_with_scores(bytes, scores, markers, values)
}

#[unsafe(no_mangle)]
pub extern "C" fn charuco_read_header(bytes: &[u8], values: &mut [u32]) -> u32
    ensures { Tells (header_told (header_answer bytes.now)) result values.old values.new }
{
    charuco::charuco_read_header(bytes, values)
}

#[unsafe(no_mangle)]
pub extern "C" fn charuco_table_entry(bytes: &[u8], k: usize, values: &mut [u32]) -> u32
    ensures { Tells (entry_told (entry_answer (parse bytes.now) k)) result values.old values.new }
{
    charuco::charuco_table_entry(bytes, k, values)
}

#[unsafe(no_mangle)]
pub extern "C" fn charuco_code(bytes: &[u8], k: usize, values: &mut [u32]) -> u32
    ensures { Tells (code_told (code_answer (parse bytes.now) k)) result values.old values.new }
{
    charuco::charuco_code(bytes, k, values)
}

#[unsafe(no_mangle)]
pub extern "C" fn charuco_cell(bytes: &[u8], k: usize, values: &mut [u32]) -> u32
    ensures { Tells (cell_told (cell_answer (parse bytes.now) k)) result values.old values.new }
{
    charuco::charuco_cell(bytes, k, values)
}

// The byte range of the grid of cell k.
#[unsafe(no_mangle)]
pub extern "C" fn charuco_grid(bytes: &[u8], k: usize, values: &mut [u32]) -> u32
    ensures answer { Tells (grid_told bytes.now (header_answer bytes.now) k) result values.old values.new }
    ensures grid { Lies bytes.now (part_answer bytes.now (parse bytes.now) k)
        (grid_answer (parse bytes.now) k) }
{
    charuco::charuco_grid(bytes, k, values)
}
