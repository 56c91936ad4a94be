// Checks that no two cells of a shot have the same grid point (document 02, 2.3).
// The index of `shot_record` has the point of each cell as a word, u in its low half and v in its high half.

#![tactic(auto)]

ghost use Rattle.std.specs.Prelude.{◌≡◌, ◌≤◌, length};
ghost use Rattle.sorting.specs.Order.{Told};
ghost use Rattle.points.specs.Points.{all_apart, point_of, SmallWords, residue_of, residue_in, HasPoints};

use shot_record::index;

// The residues of u and v modulo 32, as one number.
fn residue(point: u32) -> usize
    ensures { result ≡ residue_of point }
{
    (point / 0x1_0000 % 32 * 32 + point % 32) as usize
}

// Are the residues of the first points pairwise distinct? Those of a board's squares are, so this suffices for every shot that fits.
fn apart(index: &[u32; 768], n: usize) -> bool
    requires { n ≤ 256 }
    ensures { Told n (residue_in index.now) result }
{
    let mut met: [bool; 1024] = [false; 1024];
    for k in 0..n {
        let at = residue(index::point(index, k));
        if met[at] {
            return false;
        }
        met[at] = true;
    }
    true
}

// Writes the first points, as many as there are words.
fn put_points(words: &mut [u64], index: &[u32; 768])
    requires { length words.old ≤ 256 }
    ensures size { length words.new ≡ length words.old }
    ensures holds { HasPoints index.now (length words.old) words.new }
{
    for (k, word) in words.iter_mut().enumerate() {
        *word = u64::from(index::point(index, k));
    }
}

// Are the points of the first `n` cells pairwise distinct? They are sorted only if two share their residues.
pub fn all_different(index: &[u32; 768], n: usize) -> bool
    requires { (n ≤ 256) × SmallWords index.now n }
    ensures { result ≡ all_apart (point_of index.now) n }
{
    if apart(index, n) {
        return true;
    }
    let mut all: [u64; 256] = [0; 256];
    let words = &mut all[..n];
    put_points(words, index);
    sorting::all_different(words)
}
