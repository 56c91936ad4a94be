// A cell of the index as input of the sums of a turn, and the counts of contributing cells with it.
ghost use Rattle.std.specs.Prelude.{◌≡◌, ◌<◌, ◌≤◌, nat_abs};
ghost use Rattle.shot_record.specs.Index.{u_in, v_in};
ghost use Rattle.hypothesis.specs.Filling.{counted_of, with_counted};

use super::Inputs;
use super::framing::Turn;
use super::sums::Counted;
use super::turns::Contributing;
use shot_record::index;

// Markers alternate by parity: a cell lands on a marker in the placements that move the frame by an even number of squares if its square in the frame
// holds one, and in the others if that square holds none.
pub fn with_counted(contributing: Contributing, cell: Counted) -> Contributing
    requires { (contributing.even < 256) × (contributing.odd < 256) }
    ensures { result ≡ with_counted contributing cell }
{
    let board = cell.board;
    if board.holds_marker(cell.i, cell.j) {
        return Contributing {
            even: contributing.even + 1,
            odd: contributing.odd,
        };
    }
    Contributing {
        even: contributing.even,
        odd: contributing.odd + 1,
    }
}

// Cell k: its square in the frame and its weight.
pub fn counted(inputs: Inputs, t: Turn, index: &[u32; 768], k: usize) -> Counted
    requires { (nat_abs (u_in index.now k) ≤ 4096) × (nat_abs (v_in index.now k) ≤ 4096) × (nat_abs t.u ≤ 4096) × (nat_abs t.v ≤ 4096) × (k < 256) }
    ensures { result ≡ counted_of inputs t index.now k }
{
    let board = inputs.board;
    let p = grid_alignment::turned(t.turn, index::u(index, k), index::v(index, k));
    Counted {
        i: integers::distance(p.u, t.u),
        j: integers::distance(p.v, t.v),
        weight: score_matrix::cell_weight(inputs.config, index::border(index, k)),
        null: score_matrix::null_score(board.bits),
        board,
    }
}
