// The search by look-up (document 02, 2.6): the scores are in an array, so that it takes no record, table or codes. Its contracts require that
// some shot has these inputs, index and scores, and state the result for every such shot.
ghost use Rattle.std.specs.Prelude.{◌≡◌, true, ℕ, ◌+◌, ◌*◌, ◌<◌, ◌≤◌, get_or};
ghost use Rattle.std.specs.Float.{nan};
ghost use Rattle.shot_record.specs.Shots.{Shot};
ghost use Rattle.hypothesis.specs.Search.{enumerate};
ghost use Rattle.hypothesis.specs.Sums.{Added, Stays, marked, OfMarker};
ghost use Rattle.hypothesis.specs.Filling.{Counts};
ghost use Rattle.hypothesis.specs.ScoreList.{InScores, Scored};

use super::framing::Turn;
use super::search::TurnSums;
use super::sums::{Counted, Move};
use super::turns::Contributing;
use super::{Inputs, Selection, counting, search, sums};
use board::squares;

// The score of the cell for the marker on its square after a move. `first` is the index of its score for marker 0.
fn score_after(scores: &[f32], first: usize, cell: Counted, at: Move) -> f32
    requires { (cell.board.cols ≤ 32) × (cell.board.rows ≤ 32) × (cell.i + at.a < cell.board.cols) × (cell.j + at.b < cell.board.rows)
        × (marked cell at.a at.b ≡ true) × InScores cell.board first scores.now }
    ensures { OfMarker cell (λ (m : ℕ). get_or scores.now (first + 4 * m) nan) at result }
{
    let id = squares::marker_on(cell.board, cell.i + at.a, cell.j + at.b);
    scores[first + 4 * id]
}

// Adds a cell to the sums of all placements of a turn. `sums::add_cell` computes the scores of eight moves at a time; here each is read.
fn add_cell(
    sums: &mut [f32; 1024],
    cell: Counted,
    across: usize,
    down: usize,
    scores: &[f32],
    first: usize,
)
    requires { Stays cell across down × (across * down ≤ 1024) × InScores cell.board first scores.now }
    ensures { Added cell (λ (m : ℕ). get_or scores.now (first + 4 * m) nan) across down sums.old sums.new }
{
    let mut at = sums::first_move(cell, down);
    while at.a < across {
        let score = score_after(scores, first, cell, at);
        sums::add_score(sums, cell, at, down, score);
        at = sums::next_move(down, at);
    }
}

// Adds a cell if its weight is above 0: `fill::add_counted` over another `add_cell`, which as a closure would be no plainer.
fn add_counted(
    sums: &mut [f32; 1024],
    contributing: Contributing,
    cell: Counted,
    t: Turn,
    scores: &[f32],
    first: usize,
) -> Contributing
    requires { Stays cell t.across t.down × (t.across * t.down ≤ 1024) × InScores cell.board first scores.now × (contributing.even < 256) × (contributing.odd < 256) }
    ensures { Counts cell (λ (m : ℕ). get_or scores.now (first + 4 * m) nan) t.across t.down
        sums.old sums.new contributing result }
{
    if !(0.0 < cell.weight) {
        return contributing;
    }
    add_cell(sums, cell, t.across, t.down, scores, first);
    counting::with_counted(contributing, cell)
}

// The input of this search: what is the same for all cells, the index of the cells, and their scores.
#[derive(Clone, Copy)]
struct ScoreArray<'a> {
    inputs: Inputs,
    index: &'a [u32; 768],
    scores: &'a [f32],
}

impl TurnSums for ScoreArray<'_> {
    ghost scores_of = { λ x s. Scored s x.inputs x.index.now x.scores.now };

    // A turn without moves has no placement.
    fn fill(&self, sums: &mut [f32; 1024], t: Turn) -> Contributing {
        let mut contributing = Contributing { even: 0, odd: 0 };
        let moves = t.across * t.down;
        if moves == 0 {
            return contributing;
        }
        sums::clear(sums, moves);
        let inputs = self.inputs;
        let markers = inputs.board.marker_count() as usize;
        for k in 0..inputs.cells {
            let cell = counting::counted(inputs, t, self.index, k);
            let first = 4 * (k * markers) + t.turn as usize;
            contributing = add_counted(sums, contributing, cell, t, self.scores, first);
        }
        contributing
    }
}

// The best placement, its runner-up and the margin between them; none if no turn and translation puts every cell on the board.
pub fn enumerate_hypotheses(inputs: Inputs, index: &[u32; 768], scores: &[f32]) -> Option<Selection>
    requires { (s : Shot) × Scored s inputs index.now scores.now }
    ensures { (s : Shot) → Scored s inputs index.now scores.now → result ≡ enumerate s }
{
    let source = ScoreArray {
        inputs,
        index,
        scores,
    };
    search::enumerate(&source, inputs, index)
}
