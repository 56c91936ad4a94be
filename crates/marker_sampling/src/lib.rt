// The cells entry point: finds the whole cells, those with an inlier at each of their four corners (marker_sampling.rs, corner_map.rs).

#![tactic(auto)]

ghost use Rattle.std.specs.Prelude.{◌≡◌};
ghost use Rattle.marker_sampling.specs.Entry.{corners_answer, marker_cells, marker_cells_list};

mod corner_map;
mod labelled_corners;
pub mod questions;
mod walk;

use corner_map::CornerMap;
use labelled_corners::LabelledCorners;
use refusal::Refusal;

// Question 18 without the inliers: at most 1,024 corners, their grid points from −4,096 to 4,096, their scores finite?
pub fn corners_in_range(scores: &[f32], grid: &[i32]) -> bool
    ensures { result ≡ corners_answer scores.now grid.now }
{
    scores.len() <= 1024
        && questions::all_placed(scores.len(), grid)
        && questions::all_finite(scores)
}

// Writes the whole cells in row-major order, six words each, to the start of the output array, and returns their number; on a refusal the array is
// unchanged.
pub fn build_marker_cells(
    scores: &[f32],
    grid: &[i32],
    inliers: &[usize],
    cells: &mut [i32],
) -> Result<usize, Refusal>
    ensures answer { result ≡ marker_cells scores.now grid.now inliers.now cells.old }
    ensures list { cells.new ≡ marker_cells_list scores.now grid.now inliers.now cells.old }
{
    if !corners_in_range(scores, grid) {
        return Err(Refusal::CornersOutOfRange);
    }
    if 1024 < inliers.len() {
        return Err(Refusal::CornersOutOfRange);
    }
    if cells.len() < 1536 {
        return Err(Refusal::ListTooShort);
    }
    let corners = LabelledCorners {
        count: scores.len(),
        grid,
    };
    let mut words: [u64; 1024] = [0; 1024];
    let words = &mut words[..inliers.len()];
    corners.put_map(inliers, words);
    let map = CornerMap { inliers, words };
    let mut results: [i32; 1536] = [0; 1536];
    let count = walk::collect(map, &mut results);
    if 256 < count {
        return Err(Refusal::TooManyCells);
    }
    let end = 6 * count;
    lent_list::put(cells, 0, &results[..end]);
    Ok(count)
}
