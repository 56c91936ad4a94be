// The marker that a placement expects in a sampled cell.
ghost use Rattle.std.specs.Prelude.{◌≡◌, ◌<◌, get_or};
ghost use Rattle.matcher.specs.Codes.{turned_word};
ghost use Rattle.shot_record.specs.Shots.{shot};
ghost use Rattle.hypothesis.specs.Placements.{cell_total};
ghost use Rattle.emit.specs.Candidates.{candidate_at};
ghost use Rattle.grid_alignment.specs.Alignment.{NearAlignment};

use grid_alignment::{GridAlignment, alignments};
use hypothesis::LoadedShot;
use shot_record::index;

// A sampled cell and the marker expected in it, with the marker's rotated code.
#[derive(Clone, Copy)]
pub struct Candidate {
    pub cell: u32,
    pub id: u32,
    pub u: i16,
    pub v: i16,
    pub turn: u8,
    pub code: u64,
    pub fraction: f32,
    pub threshold: u8,
}

// The code of a marker after a turn.
fn turned_code(codes: &[u64; 512], id: u32, bits: u8, turn: u8) -> u64
    requires { id < 512 }
    ensures { result ≡ turned_word bits turn (get_or codes.now id 0) }
{
    let at = id as usize;
    matcher::rotate_code_u64(codes[at], bits, turn)
}

// The candidate of cell k: none for an unsampled cell, and where no marker is expected.
pub fn expected_in(loaded: &LoadedShot<'_>, alignment: GridAlignment, k: usize) -> Option<Candidate>
    requires { NearAlignment alignment × (k < cell_total (shot loaded.now.bytes.now)) }
    ensures { result ≡ candidate_at (shot loaded.now.bytes.now) alignment k }
{
    let board = loaded.inputs.board;
    let index = loaded.index;
    let fraction = index::border(index, k)?;
    let u = index::u(index, k);
    let v = index::v(index, k);
    let square = alignments::apply(alignment, u, v);
    let id = board.marker_id_at(square.u, square.v)?;
    let turn = alignment.turn;
    Some(Candidate {
        cell: k as u32,
        id,
        u,
        v,
        turn,
        code: turned_code(loaded.codes, id, board.bits, turn),
        fraction,
        threshold: index::threshold(index, k),
    })
}
