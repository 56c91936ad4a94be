// The walk over the keys in increasing order: the six words of each whole cell.
ghost use Rattle.std.specs.Prelude.{◌≡◌, ◌+◌, ◌*◌, ◌<◌, length, pos, ◌-ℤ◌};
ghost use Rattle.marker_sampling.specs.Cells.{Corners, point_at};
ghost use Rattle.marker_sampling.specs.Keys.{MapOf, LowerBound, FirstBelow, Collected, words_if_whole, words_at, CellAdded};

use super::corner_map::CornerMap;
use super::labelled_corners::PAST;

fn coordinate(offset: u64) -> i32
    requires { offset < 8193 }
    ensures { result ≡ pos offset -ℤ pos 4096 }
{
    offset as i32 - 4096
}

// A cell's words if it is whole, and the indices at which the searches for the cells after it can start: in its row, and in
// the row below.
#[derive(Clone, Copy)]
struct Cell {
    words: Option<[i32; 6]>,
    here: usize,
    under: usize,
}

// The words of a cell, if its four corners are there.
fn words_at(
    u: i32,
    v: i32,
    top_left: Option<u16>,
    top_right: Option<u16>,
    bottom_right: Option<u16>,
    bottom_left: Option<u16>,
) -> Option<[i32; 6]>
    ensures { result ≡ words_at u v top_left top_right bottom_right bottom_left }
{
    Some([
        u,
        v,
        i32::from(top_left?),
        i32::from(top_right?),
        i32::from(bottom_right?),
        i32::from(bottom_left?),
    ])
}

// The cell at a key. No word before `here` has this key or a greater one, and none before `under` that of the point below or a
// greater one.
fn cell_at(map: CornerMap, key: u64, here: usize, under: usize) -> Cell
    requires key_bound { key < 67125249 }
    requires here_below { FirstBelow map.words.now (key * 1024) here }
    requires under_below { FirstBelow map.words.now ((key + 8193) * 1024) under }
    ensures words_value { (c : Corners) → MapOf 4096 c map.entry.inliers.now map.entry.words.now
        → result.words ≡ words_if_whole c map.entry.inliers.now (point_at 4096 key) }
    ensures here_bound { LowerBound map.entry.words.now ((key + 1) * 1024) result.here }
    ensures under_below { FirstBelow map.entry.words.now ((key + 8194) * 1024) result.under }
{
    let u = key % 8193;
    let v = key / 8193;
    let top_left = map.last(here, u, v);
    let top_right = map.find(top_left.end, u + 1, v);
    let bottom_left = map.find(under, u, v + 1);
    let bottom_right = map.find(bottom_left.end, u + 1, v + 1);
    let words = words_at(
        coordinate(u),
        coordinate(v),
        top_left.index,
        top_right.index,
        bottom_right.index,
        bottom_left.index,
    );
    Cell {
        words,
        here: top_left.end,
        under: bottom_left.end,
    }
}

// Appends the cell to the `n` cells before it if it is whole; past 256 it is only counted.
fn put(results: &mut [i32; 1536], n: usize, cell: Option<[i32; 6]>) -> usize
    requires { n < 67125249 }
    ensures { CellAdded n cell results.old results.new result }
{
    match cell {
        None => n,
        Some(words) => {
            if n < 256 {
                lent_list::put(results, 6 * n, &words);
            }
            n + 1
        }
    }
}

// Writes the words of the whole cells in row-major order and returns their number: past 256 they are only counted.
pub fn collect(map: CornerMap, results: &mut [i32; 1536]) -> usize
    ensures { (c : Corners) → MapOf 4096 c map.entry.inliers.now map.entry.words.now
        → Collected 4096 c map.entry.inliers.now 67125249 results.old results.new result }
{
    let mut n = 0;
    let mut here = 0;
    let mut under = 0;
    let mut key = map.next(here);
    while key < PAST {
        let cell = cell_at(map, key, here, under);
        n = put(results, n, cell.words);
        here = cell.here;
        under = cell.under;
        key = map.next(here);
    }
    n
}
