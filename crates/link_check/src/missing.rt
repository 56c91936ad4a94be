// The missing ones of a marker's four corners, and their violation.
ghost use Rattle.std.specs.Prelude.{◌≡◌, ◌+◌, ◌≤◌, length};
ghost use Rattle.lent_list.specs.Front.{Put};
ghost use Rattle.link_check.specs.Links.{is_reported};
ghost use Rattle.link_check.specs.Violations.{four_of, without, missing_of, words_of_violations};
ghost use Rattle.link_check.specs.Missing.{padded};

use super::chained_links::ChainedLinks;
use super::expected::MarkerCorners;
use super::words::Missing;
use super::{LinkCheckMode, LinkViolationKind, expected as expectations, words};

// The missing ones of four corners, in order.
fn missing_from(links: ChainedLinks, marker: u32, four: [u32; 4]) -> Missing
    ensures { result ≡ padded (without (is_reported links.entry.words.now links.entry.count marker) four) }
{
    let mut missing = Missing::NONE;
    for corner in four {
        if !links.is_reported(marker, corner) {
            missing = missing.with(corner);
        }
    }
    missing
}

// One violation for the missing corners, if any is missing and the mode requires all four.
pub fn put_missing(
    links: ChainedLinks,
    mode: LinkCheckMode,
    expected: MarkerCorners,
    violations: &mut [u32],
    at: usize,
) -> usize
    requires { at + length (words_of_violations (missing_of links.words.now links.count mode expected.marker (four_of expected.corners)))
        ≤ length violations.old }
    ensures { Put violations.old violations.new at result
        (words_of_violations (missing_of links.entry.words.now links.entry.count mode expected.marker (four_of expected.corners))) }
{
    match mode {
        LinkCheckMode::SubsetOk => at,
        LinkCheckMode::MustMatchAll4 => {
            let marker = expected.marker;
            let four = expectations::four(expected.corners);
            let missing = missing_from(links, marker, four);
            if missing.count == 0 {
                return at;
            }
            words::put_violation(
                marker,
                LinkViolationKind::MissingCorners,
                0,
                four,
                missing,
                violations,
                at,
            )
        }
    }
}
