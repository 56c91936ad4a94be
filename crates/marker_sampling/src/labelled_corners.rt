// Corners with their grid points in range, and the words of the corner map: a word for each inlier, 1,024 × key + its index in
// the list. A key is the row-major index of a grid point, from (−4,096, −4,096); a skipped inlier has the key `PAST`.
ghost use Rattle.std.specs.Prelude.{◌≡◌, true, ◌+◌, ◌≤◌, ◌<◌, length, pos, ◌-ℤ◌};
ghost use Rattle.integers.specs.Distance.{is_within};
ghost use Rattle.integers.specs.Tests.{every};
ghost use Rattle.marker_sampling.specs.Cells.{corners_of};
ghost use Rattle.marker_sampling.specs.Entry.{placed};
ghost use Rattle.marker_sampling.specs.Keys.{HasKey, MapOf};

use super::questions;

// Past every grid point: 8,193 × 8,193.
pub const PAST: u64 = 67_125_249;

// The number of corners, and three words of `grid` for each.
#[derive(Clone, Copy)]
pub struct LabelledCorners<'a> {
    pub count: usize,
    pub grid: &'a [i32],
    ghost few: { count ≤ 1024 },
    ghost placed: { every (placed 4096 (corners_of count grid.now)) count ≡ true },
}

fn offset(z: i32) -> u64
    requires { is_within 4096 z ≡ true }
    ensures { (z ≡ pos result -ℤ pos 4096) × (result < 8193) }
{
    (z + 4096) as u64
}

impl<'a> LabelledCorners<'a> {
    // The key of the grid point of corner k.
    fn key_of(self, k: usize) -> u64
        ensures { HasKey 4096 (corners_of self.entry.count self.entry.grid.now) k result }
    {
        if self.count <= k {
            return PAST;
        }
        if !questions::labelled(self.grid, k) {
            return PAST;
        }
        let u = offset(questions::word(self.grid, 3 * k + 1));
        let v = offset(questions::word(self.grid, 3 * k + 2));
        v * 8193 + u
    }

    // The words of the inliers, sorted.
    pub fn put_map(self, inliers: &[usize], words: &mut [u64])
        requires { (length inliers.now ≤ 1024) × (length words.old ≡ length inliers.now) }
        ensures { MapOf 4096 (corners_of self.entry.count self.entry.grid.now) inliers.now words.new }
    {
        for (i, inlier) in inliers.iter().enumerate() {
            words[i] = self.key_of(*inlier) * 1024 + i as u64;
        }
        sorting::sort(words);
    }
}
