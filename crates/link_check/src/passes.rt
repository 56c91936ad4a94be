// The two passes over the links: each link's own violation, then the violations of each expected marker.
ghost use Rattle.std.specs.Prelude.{◌+◌, ◌*◌, ◌≤◌, ◌<◌, length};
ghost use Rattle.lent_list.specs.Front.{up_to, Put};
ghost use Rattle.link_check.specs.Violations.{expectation, four_of, own as own_entry, of_four, of_first, words_of_violations};

use super::chained_links::ChainedLinks;
use super::expected::MarkerCorners;
use super::{LinkCheckMode, chains, expected, missing, own, repeats};
use board::Board;

// What links are checked against: the board, and how strictly.
#[derive(Clone, Copy)]
pub struct Standard {
    pub board: Board,
    pub mode: LinkCheckMode,
}

pub fn put_own_entries(board: Board, links: ChainedLinks, violations: &mut [u32]) -> usize
    requires { 12 * links.count ≤ length violations.old }
    ensures { Put violations.old violations.new 0 result
        (words_of_violations (up_to (own_entry links.entry.words.now (expectation board)) links.entry.count)) }
{
    let mut end = 0;
    for k in 0..links.count {
        let marker = chains::marker_of(links.words, k);
        end = own::put_own(
            board,
            marker,
            chains::corner_of(links.words, k),
            violations,
            end,
        );
    }
    end
}

// The violations of a marker with its four corners.
fn put_of_four(
    links: ChainedLinks,
    mode: LinkCheckMode,
    expected: MarkerCorners,
    violations: &mut [u32],
    at: usize,
) -> usize
    requires { at + length (words_of_violations (of_four links.words.now links.count mode expected.marker (four_of expected.corners)))
        ≤ length violations.old }
    ensures { Put violations.old violations.new at result
        (words_of_violations (of_four links.entry.words.now links.entry.count mode expected.marker (four_of expected.corners))) }
{
    let end = repeats::put_repeats(links, expected, violations, at);
    missing::put_missing(links, mode, expected, violations, end)
}

// The violations of link k's marker, if the link is its first and the marker is expected.
fn put_of_first(
    standard: Standard,
    links: ChainedLinks,
    k: usize,
    violations: &mut [u32],
    at: usize,
) -> usize
    requires inside { k < links.count }
    requires room { at + length (words_of_violations (of_first links.words.now links.count standard.mode (expectation standard.board) k))
        ≤ length violations.old }
    ensures { Put violations.old violations.new at result
        (words_of_violations (of_first links.entry.words.now links.entry.count standard.mode (expectation standard.board) k)) }
{
    if !links.is_first(k) {
        return at;
    }
    let marker = chains::marker_of(links.words, k);
    let Ok(corners) = expected::expectation(standard.board, marker) else {
        return at;
    };
    put_of_four(
        links,
        standard.mode,
        MarkerCorners { marker, corners },
        violations,
        at,
    )
}

// The violations of each expected marker, in order of first appearance.
pub fn put_marker_entries(
    standard: Standard,
    links: ChainedLinks,
    violations: &mut [u32],
    at: usize,
) -> usize
    requires { at + length (words_of_violations (up_to (of_first links.words.now links.count standard.mode (expectation standard.board)) links.count))
        ≤ length violations.old }
    ensures { Put violations.old violations.new at result
        (words_of_violations (up_to (of_first links.entry.words.now links.entry.count standard.mode (expectation standard.board)) links.entry.count)) }
{
    let mut end = at;
    for k in 0..links.count {
        end = put_of_first(standard, links, k, violations, end);
    }
    end
}
