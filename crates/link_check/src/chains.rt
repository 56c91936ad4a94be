// Hash chains over the links, with keys below 4,096, to find the links of a marker, and earlier links with the same marker and corner,
// without a scan of all links. A link is two words: a marker's id and a corner's.
ghost use Rattle.std.specs.Prelude.{◌≡◌, ◌≤◌, ◌<◌};
ghost use Rattle.integers.specs.Tests.{any_below};
ghost use Rattle.link_check.specs.Links.{link_marker, link_corner, repeated, first as first_of, is_reported};
ghost use Rattle.link_check.specs.Chains.{key_for, key_of, links_to, Chained};

use super::chained_links::ChainedLinks;

// What the links of a chain are found by.
#[derive(Clone, Copy)]
pub enum By {
    // The corner is ignored.
    Marker,
    MarkerAndCorner,
}

pub fn marker_of(links: &[u32], k: usize) -> u32
    requires { k ≤ 4096 }
    ensures { result ≡ link_marker links.now k }
{
    links.get(2 * k).copied().unwrap_or(0)
}

pub fn corner_of(links: &[u32], k: usize) -> u32
    requires { k ≤ 4096 }
    ensures { result ≡ link_corner links.now k }
{
    links.get(2 * k + 1).copied().unwrap_or(0)
}

// The key (hash) of a marker, or of a marker and a corner. Markers below 4,096 have distinct keys, as 61 is odd.
pub fn key_for(by: By, marker: u32, corner: u32) -> usize
    ensures { (result ≡ key_for by marker corner) × (result < 4096) }
{
    let sum = match by {
        By::Marker => 61 * marker as u64,
        By::MarkerAndCorner => 61 * marker as u64 + corner as u64,
    };
    (sum % 4096) as usize
}

// Does link j have the marker and, unless it is ignored, the corner?
fn links_to(links: &[u32], by: By, marker: u32, corner: u32, j: usize) -> bool
    requires { j ≤ 4096 }
    ensures { result ≡ links_to by links.now marker corner j }
{
    match by {
        By::Marker => marker_of(links, j) == marker,
        By::MarkerAndCorner => marker_of(links, j) == marker && corner_of(links, j) == corner,
    }
}

// chain[b] is the first link with key b, chain[4096 + k] the first one after k with k's key, each `n` if there is none: an
// Option would take twice the memory. Filled from the last link to the first.
pub fn fill_chain(links: &[u32], n: usize, by: By, chain: &mut [u16; 8192])
    requires { n ≤ 4096 }
    ensures { Chained (key_of by links.now) n chain.new }
{
    chain[..4096].fill(n as u16);
    for k in (0..n).rev() {
        let b = key_for(by, marker_of(links, k), corner_of(links, k));
        chain[4096 + k] = chain[b];
        chain[b] = k as u16;
    }
}

impl<'a> ChainedLinks<'a> {
    fn chain(self, by: By) -> &'a [u16; 8192]
        ensures { Chained (key_of by self.entry.words.now) self.entry.count result.now }
    {
        match by {
            By::Marker => self.by_marker,
            By::MarkerAndCorner => self.by_corner,
        }
    }

    // Does one of the first `end` links have the marker and, unless it is ignored, the corner? Follows the chain of their key.
    fn found_before(self, by: By, marker: u32, corner: u32, end: usize) -> bool
        requires { end ≤ self.count }
        ensures { result ≡ any_below (links_to by self.entry.words.now marker corner) end }
    {
        let chain = self.chain(by);
        let mut j = chain[key_for(by, marker, corner)] as usize;
        while j < end {
            if links_to(self.words, by, marker, corner, j) {
                return true;
            }
            j = chain[4096 + j] as usize;
        }
        false
    }

    // Does link k repeat an earlier one?
    pub fn is_repeated(self, k: usize) -> bool
        requires { k < self.count }
        ensures { result ≡ repeated self.entry.words.now k }
    {
        let marker = marker_of(self.words, k);
        self.found_before(By::MarkerAndCorner, marker, corner_of(self.words, k), k)
    }

    // Does a link report the marker's corner?
    pub fn is_reported(self, marker: u32, corner: u32) -> bool
        ensures { result ≡ is_reported self.entry.words.now self.entry.count marker corner }
    {
        self.found_before(By::MarkerAndCorner, marker, corner, self.count)
    }

    // Is link k the first of its marker?
    pub fn is_first(self, k: usize) -> bool
        requires { k < self.count }
        ensures { result ≡ first_of self.entry.words.now k }
    {
        !self.found_before(By::Marker, marker_of(self.words, k), 0, k)
    }
}
