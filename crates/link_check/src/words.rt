// Writes the twelve words of a violation to the output array.
ghost use Rattle.std.specs.Prelude.{◌≡◌, List, [], ◌∷◌, ◌++◌, ℕ, ◌+◌, ◌≤◌, ◌<◌, length};
ghost use Rattle.lent_list.specs.Front.{Put};
ghost use Rattle.link_check.specs.Violations.{told, kind_number};
ghost use Rattle.link_check.specs.Missing.{padded};

use super::LinkViolationKind;

// The missing ones of four corners, in order, padded with 0. The number is beside them as the violation's words have it, and there is no heap.
#[derive(Clone, Copy)]
pub struct Missing {
    pub count: u32,
    pub corners: [u32; 4],
}

impl Missing {
    pub const NONE: Missing = Missing {
        count: 0,
        corners: [0, 0, 0, 0],
    };

    // With a further corner.
    pub fn with(self, corner: u32) -> Missing
        requires { self.count < 4 }
        ensures { (ms : List ℕ) → self ≡ padded ms → result ≡ padded (ms ++ corner ∷ []) }
    {
        let mut corners = self.corners;
        corners[self.count as usize] = corner;
        Missing {
            count: self.count + 1,
            corners,
        }
    }
}

// Appends a violation.
pub fn put_violation(
    marker: u32,
    kind: LinkViolationKind,
    corner: u32,
    expected: [u32; 4],
    missing: Missing,
    violations: &mut [u32],
    at: usize,
) -> usize
    requires { at + 12 ≤ length violations.old }
    ensures { Put violations.old violations.new at result
        (told marker (kind_number kind) corner expected missing.count missing.corners) }
{
    let past = missing.corners;
    let words: [u32; 12] = [
        marker,
        kind.number(),
        corner,
        expected[0],
        expected[1],
        expected[2],
        expected[3],
        missing.count,
        past[0],
        past[1],
        past[2],
        past[3],
    ];
    lent_list::put(violations, at, &words)
}
