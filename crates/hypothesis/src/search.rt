// The search: for each turn in order the sums of all its placements are ranked; then the margin of the best.
ghost use Rattle.std.specs.Prelude.{◌≡◌, ◌<◌};
ghost use Rattle.shot_record.specs.Shots.{Shot, shot};
ghost use Rattle.hypothesis.specs.Inputs.{SearchInput};
ghost use Rattle.hypothesis.specs.Search.{enumerate};
ghost use Rattle.hypothesis.specs.Turns.{Summed, turn_of};

use super::framing::Turn;
use super::turns::Contributing;
use super::{Inputs, LoadedShot, Selection, fill, framing, turns};

// A source of the scores of a shot's cells: their grids, or an array of scores. `scores_of` says that it has those of a shot.
pub(super) trait TurnSums {
    ghost scores_of: { Self → Shot → Type 0 };

    // The sums of a turn over all cells in order, and the counts of contributing cells.
    fn fill(&self, sums: &mut [f32; 1024], t: Turn) -> Contributing
        requires { (s : Shot) × scores_of self.now s × (t ≡ turn_of s t.turn) × (t.turn < 4) }
        ensures { (s : Shot) → scores_of self.now s → t ≡ turn_of s t.turn → Summed s t.turn sums.new result };
}

impl TurnSums for LoadedShot<'_> {
    ghost scores_of = { λ x s. s ≡ shot x.bytes.now };

    fn fill(&self, sums: &mut [f32; 1024], t: Turn) -> Contributing {
        fill::fill(sums, self, t)
    }
}

// The best placement, its runner-up and the margin between them; none if no turn and translation puts every cell on the board.
pub(super) fn enumerate<S: TurnSums>(
    source: &S,
    inputs: Inputs,
    index: &[u32; 768],
) -> Option<Selection>
    requires { (s : Shot) × SearchInput s inputs index.now × S.scores_of source.now s }
    ensures { (s : Shot) → SearchInput s inputs index.now → S.scores_of source.now s → result ≡ enumerate s }
{
    let sides = framing::cell_sides(index, inputs.cells);
    let mut sums: [f32; 1024] = [0.0; 1024];
    let mut ranking = ranking::no_ranking();
    for turn in 0..4 {
        let t = framing::turn_of(inputs.board, sides, turn);
        let contributing = source.fill(&mut sums, t);
        ranking = turns::rank_turn(ranking, &sums, contributing, t);
    }
    turns::enumerated(ranking, inputs, index)
}

// The search with the scores computed from the cells' grids.
pub fn enumerate_hypotheses(loaded: &LoadedShot<'_>) -> Option<Selection>
    ensures { result ≡ enumerate (shot loaded.now.bytes.now) }
{
    enumerate(loaded, loaded.inputs, loaded.index)
}
