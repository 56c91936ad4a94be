// The corners that the board expects for a marker, or the kind of violation of each of its links.
ghost use Rattle.std.specs.Prelude.{◌≡◌};
ghost use Rattle.link_check.specs.Violations.{expectation, four_of};

use super::LinkViolationKind;
use board::{Board, Surrounding};

#[derive(Clone, Copy)]
pub struct MarkerCorners {
    pub marker: u32,
    pub corners: Surrounding,
}

#[tactic(auto, unfolding(crate::specs::Violations::expectation))]
pub fn expectation(board: Board, marker: u32) -> Result<Surrounding, LinkViolationKind>
    ensures { result ≡ expectation board marker }
{
    board
        .marker_position(marker)
        .ok_or(LinkViolationKind::UnknownMarker)?;
    board
        .marker_surrounding_charuco_corners(marker)
        .ok_or(LinkViolationKind::MarkerHasNoFourCorners)
}

// The four corners of the list `expected` in a violation.
pub fn four(corners: Surrounding) -> [u32; 4]
    ensures { result ≡ four_of corners }
{
    [
        corners.top_left,
        corners.top_right,
        corners.bottom_right,
        corners.bottom_left,
    ]
}
