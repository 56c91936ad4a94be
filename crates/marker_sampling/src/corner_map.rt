// The corner map: the sorted words of the inliers (labelled_corners.rt). Of the inliers at one grid point the last has the
// greatest word.
ghost use Rattle.std.specs.Prelude.{◌≡◌, ℕ, ◌+◌, ◌*◌, ◌≤◌, ◌<◌};
ghost use Rattle.marker_sampling.specs.Cells.{Corners, holder};
ghost use Rattle.marker_sampling.specs.Keys.{MapOf, LowerBound, FirstBelow, Searchable, Next, range_point, in_option};

use super::labelled_corners::PAST;

#[derive(Clone, Copy)]
pub struct CornerMap<'a> {
    pub inliers: &'a [usize],
    pub words: &'a [u64],
    // `MapOf` stands in the contracts beside it: it has indices, and a ghost field may have facts only.
    ghost searchable: { Searchable 4096 inliers.now words.now },
}

// An inlier, and the index at which the next search can start.
#[derive(Clone, Copy)]
pub struct Found {
    pub index: Option<u16>,
    pub end: usize,
}

impl<'a> CornerMap<'a> {
    // The index of the first word that is not below `x` (lower bound), or the number of words. The words before `from` are known
    // to be below `x`: keys increase in the walk, so each search starts where an earlier one ended and goes few words further. Not
    // `partition_point`, which would go over all the words that are left, by halves, each time.
    fn seek(self, from: usize, x: u64) -> usize
        requires { FirstBelow self.words.now x from }
        ensures { LowerBound self.entry.words.now x result }
    {
        for p in from..self.words.len() {
            if x <= self.words[p] {
                return p;
            }
        }
        self.words.len()
    }

    // The last inlier at the point with the offsets u and v, and the index of the first word with a greater key.
    pub fn last(self, from: usize, u: u64, v: u64) -> Found
        requires bounds { (u < 8193) × (v < 8193) }
        requires first_below { FirstBelow self.words.now ((v * 8193 + u) * 1024) from }
        ensures index_value { (c : Corners) → MapOf 4096 c self.entry.inliers.now self.entry.words.now
            → result.index ≡ in_option (holder c self.entry.inliers.now (range_point 4096 u v)) }
        ensures lower_bound { LowerBound self.entry.words.now ((v * 8193 + u + 1) * 1024) result.end }
    {
        let key = v * 8193 + u;
        let first = self.seek(from, key * 1024);
        let end = self.seek(first, (key + 1) * 1024);
        if end <= first {
            return Found { index: None, end };
        }
        let word = self.words[end - 1];
        let index = self.inliers[(word % 1024) as usize] as u16;
        Found {
            index: Some(index),
            end,
        }
    }

    // The same for a point that may be out of range, where no inlier is.
    pub fn find(self, from: usize, u: u64, v: u64) -> Found
        requires { FirstBelow self.words.now ((v * 8193 + u) * 1024) from }
        ensures index_value { (c : Corners) → MapOf 4096 c self.entry.inliers.now self.entry.words.now
            → result.index ≡ in_option (holder c self.entry.inliers.now (range_point 4096 u v)) }
        ensures first_below { FirstBelow self.entry.words.now ((v * 8193 + u + 1) * 1024) result.end }
    {
        if 8192 < u {
            return Found {
                index: None,
                end: from,
            };
        }
        if 8192 < v {
            return Found {
                index: None,
                end: from,
            };
        }
        self.last(from, u, v)
    }

    // The key of the word at `p`, or `PAST`. Not an Option: the words of skipped inliers, which are last, have this key too.
    pub fn next(self, p: usize) -> u64
        ensures { (from : ℕ) → from ≤ 67125249 → LowerBound self.entry.words.now (from * 1024) p → Next self.entry.words.now 67125249 from result }
    {
        if self.words.len() <= p {
            return PAST;
        }
        self.words[p] / 1024
    }
}
