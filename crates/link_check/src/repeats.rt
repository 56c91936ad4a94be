// The repeated corners of a marker.
ghost use Rattle.std.specs.Prelude.{◌+◌, ◌≤◌, ◌<◌, length};
ghost use Rattle.lent_list.specs.Front.{up_to, Put};
ghost use Rattle.link_check.specs.Violations.{four_of, repeat_at, words_of_violations};

use super::chained_links::ChainedLinks;
use super::chains::By;
use super::expected::MarkerCorners;
use super::{LinkViolationKind, chains, expected as expectations, own};

// The violation of link k, if it has the marker and repeats an earlier one.
fn put_repeat(
    links: ChainedLinks,
    expected: MarkerCorners,
    k: usize,
    violations: &mut [u32],
    at: usize,
) -> usize
    requires inside { k < links.count }
    requires room { at + length (words_of_violations (repeat_at links.words.now expected.marker (four_of expected.corners) k))
        ≤ length violations.old }
    ensures { Put violations.old violations.new at result
        (words_of_violations (repeat_at links.entry.words.now expected.marker (four_of expected.corners) k)) }
{
    if chains::marker_of(links.words, k) != expected.marker || !links.is_repeated(k) {
        return at;
    }
    own::put_of_link(
        LinkViolationKind::DuplicateCorner,
        expected.marker,
        chains::corner_of(links.words, k),
        expectations::four(expected.corners),
        violations,
        at,
    )
}

// The violations of the links of a marker that repeat an earlier one, in link order.
pub fn put_repeats(
    links: ChainedLinks,
    expected: MarkerCorners,
    violations: &mut [u32],
    at: usize,
) -> usize
    requires { at + length (words_of_violations (up_to (repeat_at links.words.now expected.marker (four_of expected.corners)) links.count))
        ≤ length violations.old }
    ensures { Put violations.old violations.new at result
        (words_of_violations (up_to (repeat_at links.entry.words.now expected.marker (four_of expected.corners)) links.entry.count)) }
{
    let mut end = at;
    let mut k = links.by_marker[chains::key_for(By::Marker, expected.marker, 0)] as usize;
    while k < links.count {
        end = put_repeat(links, expected, k, violations, end);
        k = links.by_marker[4096 + k] as usize;
    }
    end
}
