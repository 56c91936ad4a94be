// The cells entry point.
ghost use Rattle.std.specs.Prelude.{◌≡◌};
ghost use Rattle.marker_sampling.specs.Entry.{marker_cells, marker_cells_list};
ghost use Rattle.charuco.specs.Answers.{Tells, count_told};

use super::values;

pub fn charuco_build_marker_cells(
    scores: &[f32],
    grid: &[i32],
    inliers: &[usize],
    cells: &mut [i32],
    values: &mut [u32],
) -> u32
    ensures answer { Tells (count_told (marker_cells scores.now grid.now inliers.now cells.old)) result
        values.old values.new }
    ensures list { cells.new ≡ marker_cells_list scores.now grid.now inliers.now cells.old }
{
    let answer = marker_sampling::build_marker_cells(scores, grid, inliers, cells);
    values::counted(values, answer)
}
