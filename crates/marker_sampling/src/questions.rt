// The parts of question 18 of document 01 that are more than one comparison, and the words of a corner that they read.
ghost use Rattle.std.specs.Prelude.{◌≡◌, ◌≤◌, get_or, pos};
ghost use Rattle.marker_sampling.specs.Cells.{labelled, corners_of};
ghost use Rattle.integers.specs.Distance.{is_within};
ghost use Rattle.integers.specs.Tests.{every};
ghost use Rattle.marker_sampling.specs.Entry.{placed, finite_scores};

// The word at an index; 0 past the end.
pub fn word(grid: &[i32], at: usize) -> i32
    ensures { result ≡ get_or grid.now at (pos 0) }
{
    grid.get(at).copied().unwrap_or(0)
}

// |z| ≤ limit?
pub fn within(limit: u16, z: i32) -> bool
    ensures { result ≡ is_within limit z }
{
    let most = i32::from(limit);
    (-most..=most).contains(&z)
}

// Has corner k a grid point?
pub fn labelled(grid: &[i32], k: usize) -> bool
    requires { k ≤ 1024 }
    ensures { result ≡ labelled (corners_of 0 grid.now) k }
{
    word(grid, 3 * k) != 0
}

// Is corner k in range, if it has a grid point?
fn placed(grid: &[i32], k: usize) -> bool
    requires { k ≤ 1024 }
    ensures { result ≡ placed 4096 (corners_of 0 grid.now) k }
{
    if !labelled(grid, k) {
        return true;
    }
    within(4096, word(grid, 3 * k + 1)) && within(4096, word(grid, 3 * k + 2))
}

pub fn all_placed(count: usize, grid: &[i32]) -> bool
    requires { count ≤ 1024 }
    ensures { result ≡ every (placed 4096 (corners_of count grid.now)) count }
{
    for k in 0..count {
        if !placed(grid, k) {
            return false;
        }
    }
    true
}

pub fn all_finite(scores: &[f32]) -> bool
    ensures { result ≡ finite_scores scores.now }
{
    for score in scores {
        if !floats::is_finite(*score) {
            return false;
        }
    }
    true
}
