// Emits, in cell order, the markers that a placement expects in sampled cells with weight above 0 and evidence above 0 (emit.rs).

#![tactic(auto)]

ghost use Rattle.std.specs.Prelude.{◌≡◌, ◌+◌, ◌*◌, ◌≤◌, length};
ghost use mathlib.Core.List.{flat_map};
ghost use Rattle.lent_list.specs.Front.{in_front, Put};
ghost use Rattle.shot_record.specs.Shots.{shot};
ghost use Rattle.hypothesis.specs.Placements.{cell_total};
ghost use Rattle.emit.specs.Markers.{markers as markers_of, marker_words};
ghost use Rattle.emit.specs.Candidates.{OfCell, emitted_for};
ghost use Rattle.grid_alignment.specs.Alignment.{NearAlignment};

mod candidates;
mod words;

use candidates::Candidate;
use grid_alignment::GridAlignment;
use hypothesis::LoadedShot;
use shot_record::index;

// Writes the words of the expected marker, if it is emitted, from index `at` on. Returns the index after them.
fn emit_expected(
    loaded: &LoadedShot<'_>,
    expected: Option<Candidate>,
    markers: &mut [u32],
    at: usize,
) -> usize
    requires of_cell { OfCell (shot loaded.now.bytes.now) expected }
    requires expected_in_bounds { at + length (flat_map marker_words (emitted_for (shot loaded.now.bytes.now) expected)) ≤ length markers.old }
    ensures { Put markers.old markers.new at result (flat_map marker_words (emitted_for (shot loaded.now.bytes.now) expected)) }
{
    let Some(c) = expected else {
        return at;
    };
    let inputs = loaded.inputs;
    let grid = index::grid(
        loaded.bytes,
        inputs.grid_size,
        loaded.index,
        c.cell as usize,
    );
    words::emit_marker(c, grid, inputs, loaded.table, markers, at)
}

// Writes 18 words for each marker to the start of the output array. Returns the number of markers.
pub fn emit_markers(loaded: &LoadedShot<'_>, alignment: GridAlignment, markers: &mut [u32]) -> usize
    requires near { NearAlignment alignment }
    requires bytes_in_bounds { 18 * cell_total (shot loaded.now.bytes.now) ≤ length markers.old }
    ensures count { result ≡ length (markers_of (shot loaded.now.bytes.now) alignment) }
    ensures list { markers.new
        ≡ in_front (flat_map marker_words (markers_of (shot loaded.now.bytes.now) alignment)) markers.old }
{
    let mut at = 0;
    for k in 0..loaded.inputs.cells {
        let expected = candidates::expected_in(loaded, alignment, k);
        at = emit_expected(loaded, expected, markers, at);
    }
    at / 18
}
