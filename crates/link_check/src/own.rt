// The violation of a link itself: unknown marker, no four corners, or corner not in neighbourhood.
ghost use Rattle.std.specs.Prelude.{◌+◌, ◌≤◌, length};
ghost use Rattle.lent_list.specs.Front.{Put};
ghost use Rattle.link_check.specs.Violations.{expectation, of_link, against, violation_words, words_of_violations};

use super::words::Missing;
use super::{LinkViolationKind, expected, words};
use board::Board;

const NONE: [u32; 4] = [0, 0, 0, 0];

// A violation with the corner of a link.
pub fn put_of_link(
    kind: LinkViolationKind,
    marker: u32,
    corner: u32,
    expected: [u32; 4],
    violations: &mut [u32],
    at: usize,
) -> usize
    requires { at + 12 ≤ length violations.old }
    ensures { Put violations.old violations.new at result (violation_words (of_link kind marker corner expected)) }
{
    words::put_violation(
        marker,
        kind,
        corner,
        expected,
        Missing::NONE,
        violations,
        at,
    )
}

pub fn put_own(board: Board, marker: u32, corner: u32, violations: &mut [u32], at: usize) -> usize
    requires { at + 12 ≤ length violations.old }
    ensures { Put violations.old violations.new at result (words_of_violations (against (expectation board marker) marker corner)) }
{
    match expected::expectation(board, marker) {
        Err(kind) => put_of_link(kind, marker, corner, NONE, violations, at),
        Ok(corners) => {
            let four = expected::four(corners);
            if four.contains(&corner) {
                return at;
            }
            put_of_link(
                LinkViolationKind::CornerNotInNeighborhood,
                marker,
                corner,
                four,
                violations,
                at,
            )
        }
    }
}
