// The link entry point: checks reported links of markers and corners against the board and lists the violations (link_check.rs).

#![tactic(auto)]

ghost use Rattle.std.specs.Prelude.{◌≡◌, ◌*◌, ◌≤◌, length};
ghost use Rattle.lent_list.specs.Front.{Put};
ghost use Rattle.link_check.specs.Links.{link_count};
ghost use Rattle.link_check.specs.Violations.{kind_number, words_of_violations};
ghost use Rattle.link_check.specs.Entry.{mode_of, violations_on, check_links, check_links_list};

mod chained_links;
mod chains;
mod expected;
mod missing;
mod own;
mod passes;
mod repeats;
mod words;

use board::{Board, CharucoBoardSpec};
use chained_links::ChainedLinks;
use chains::By;
use passes::Standard;
use refusal::Refusal;

// How strictly links are checked.
#[derive(Clone, Copy)]
pub enum LinkCheckMode {
    // The corners of a marker are some of its four, each once.
    SubsetOk,
    // They are its four.
    MustMatchAll4,
}

// 0 is `SubsetOk`, every other number `MustMatchAll4`.
impl From<u32> for LinkCheckMode {
    ghost from_gives = { λ number mode. mode ≡ mode_of number };

    fn from(number: u32) -> LinkCheckMode {
        if number == 0 {
            return LinkCheckMode::SubsetOk;
        }
        LinkCheckMode::MustMatchAll4
    }
}

#[derive(Clone, Copy)]
pub enum LinkViolationKind {
    UnknownMarker = 1,
    MarkerHasNoFourCorners = 2,
    CornerNotInNeighborhood = 3,
    DuplicateCorner = 4,
    MissingCorners = 5,
}

impl LinkViolationKind {
    pub fn number(self) -> u32
        ensures { result ≡ kind_number self }
    {
        self as u32
    }
}

// Both passes, for links that passed the questions. Returns the index after the last word.
fn check(
    board: Board,
    links: &[u32],
    n: usize,
    mode: LinkCheckMode,
    violations: &mut [u32],
) -> usize
    requires { (n ≡ link_count links.now) × (n ≤ 4096) × (36 * n ≤ length violations.old) }
    ensures { Put violations.old violations.new 0 result (words_of_violations (violations_on board mode links.now)) }
{
    let mut by_marker: [u16; 8192] = [0; 8192];
    let mut by_corner: [u16; 8192] = [0; 8192];
    chains::fill_chain(links, n, By::Marker, &mut by_marker);
    chains::fill_chain(links, n, By::MarkerAndCorner, &mut by_corner);
    let chained = ChainedLinks {
        words: links,
        count: n,
        by_marker: &by_marker,
        by_corner: &by_corner,
    };
    let end = passes::put_own_entries(board, chained, violations);
    passes::put_marker_entries(Standard { board, mode }, chained, violations, end)
}

// Writes the violations of links on a board, twelve words each, to the start of the output array, and returns their number; on a refusal the array is
// unchanged.
pub fn validate_marker_corner_links(
    spec: CharucoBoardSpec,
    codes: &[u64],
    links: &[u32],
    mode: LinkCheckMode,
    violations: &mut [u32],
) -> Result<usize, Refusal>
    ensures answer { result ≡ check_links spec codes.now mode links.now violations.old }
    ensures list { violations.new ≡ check_links_list spec codes.now mode links.now violations.old }
{
    let board = Board::new(spec, codes)?;
    let n = links.len() / 2;
    if 4096 < n {
        return Err(Refusal::TooManyLinks);
    }
    if violations.len() < 36 * n {
        return Err(Refusal::ListTooShort);
    }
    let end = check(board, links, n, mode, violations);
    Ok(end / 12)
}
