// The ranking of all placements of one turn from their sums, and the result of the last ranking. With d moves down, the placement whose frame is
// moved by (a, b) has its sum at index a d + b.
ghost use Rattle.std.specs.Prelude.{◌≡◌, ◌<◌, ◌≤◌, pos, nat_abs, ◌-ℤ◌};
ghost use Rattle.grid_alignment.specs.declared.GridAlignment.{GridAlignment};
ghost use Rattle.grid_alignment.specs.Alignment.{NearAlignment};
ghost use Rattle.ranking.specs.declared.Hypothesis.{Hypothesis};
ghost use Rattle.hypothesis.specs.Capacity.{capacity_to};
ghost use Rattle.hypothesis.specs.Turns.{count_at, evidence_at, moved_to, SmallTurn, PassesOver, ranked_column, ranked_turn, selection_of, enumerated_with};

use super::framing::Turn;
use super::{Inputs, Selection, capacity};
use grid_alignment::GridAlignment;
use ranking::{Evidence, Hypothesis, Ranking};

// Counts of contributing cells. Markers alternate by parity, so all placements with the same parity of a + b have the same count.
#[derive(Clone, Copy)]
pub struct Contributing {
    pub even: usize,
    pub odd: usize,
}

// The count of the placements that move the frame by n squares in all.
fn count_at(contributing: Contributing, n: usize) -> usize
    ensures { result ≡ count_at contributing n }
{
    if n % 2 == 0 {
        return contributing.even;
    }
    contributing.odd
}

// The evidence of the placement moved by (a, b): `Absent` where no cell contributes.
pub fn placement_sum(
    sums: &[f32; 1024],
    contributing: Contributing,
    down: usize,
    a: usize,
    b: usize,
) -> Evidence
    requires { (a < 32) × (b < 32) × (down ≤ 32) }
    ensures { result ≡ evidence_at sums.now contributing down a b }
{
    if 0 < count_at(contributing, a + b) {
        Evidence::Number(sums[a * down + b])
    } else {
        Evidence::Absent
    }
}

// The translation that puts the least coordinate of the frame on column or row `a`.
fn translation(a: usize, least: i32) -> i32
    requires { (a < 32) × (nat_abs least ≤ 8192) }
    ensures { result ≡ pos a -ℤ least }
{
    a as i32 - least
}

// The placement moved by (a, b), with its evidence and its count.
fn moved_to(
    sums: &[f32; 1024],
    contributing: Contributing,
    t: Turn,
    a: usize,
    b: usize,
) -> Hypothesis
    requires { (a < 32) × (b < 32) × SmallTurn t }
    ensures { result ≡ moved_to sums.now contributing t a b }
{
    let evidence = placement_sum(sums, contributing, t.down, a, b);
    let alignment = GridAlignment {
        turn: t.turn,
        tx: translation(a, t.u),
        ty: translation(b, t.v),
    };
    Hypothesis {
        alignment,
        evidence,
        contributing_cells: count_at(contributing, a + b),
    }
}

// The first row from `from` on whose placement changes best or runner-up, else `down`. Most change neither, and until one does the loop compares with
// the same two numbers.
fn next_change(
    held: Ranking,
    sums: &[f32; 1024],
    contributing: Contributing,
    down: usize,
    a: usize,
    from: usize,
) -> usize
    requires { (a < 32) × (down ≤ 32) × (from ≤ down) }
    ensures { PassesOver sums.now contributing down a held from result }
{
    let best = held.best;
    let runner_up = held.runner_up;
    for b in from..down {
        let evidence = placement_sum(sums, contributing, down, a, b);
        if !ranking::changes_nothing(best, runner_up, evidence) {
            return b;
        }
    }
    down
}

// Ranks the placements of column `a`.
fn rank_column(
    ranking: Ranking,
    sums: &[f32; 1024],
    contributing: Contributing,
    t: Turn,
    a: usize,
) -> Ranking
    requires { (a < 32) × SmallTurn t × (ranking.total ≤ 4096) }
    ensures { result ≡ ranked_column ranking sums.now contributing t a }
{
    let down = t.down;
    let mut held = ranking;
    let mut b = next_change(held, sums, contributing, down, a, 0);
    // No `for`: `next_change` passes over rows.
    while b < down {
        held = ranking::ranked(held, moved_to(sums, contributing, t, a, b));
        b = next_change(held, sums, contributing, down, a, b + 1);
    }
    Ranking {
        best: held.best,
        runner_up: held.runner_up,
        total: ranking.total + down,
    }
}

// Ranks the placements of a turn, in the order of a, then b.
pub fn rank_turn(
    ranking: Ranking,
    sums: &[f32; 1024],
    contributing: Contributing,
    t: Turn,
) -> Ranking
    requires { (t.across ≤ 32) × SmallTurn t × (ranking.total ≤ 3072) }
    ensures { result ≡ ranked_turn ranking sums.now contributing t t.across }
{
    let mut held = ranking;
    for a in 0..t.across {
        held = rank_column(held, sums, contributing, t, a);
    }
    held
}

// The result, if there is a best placement.
fn selected(ranking: Ranking, best: Hypothesis, best_capacity: f32) -> Selection
    ensures { result ≡ selection_of ranking best best_capacity }
{
    Selection {
        best,
        runner_up: ranking.runner_up,
        total: ranking.total,
        margin: ranking::margin(best.evidence, best_capacity, ranking.runner_up),
    }
}

// The result of the search from the ranking of all placements: none if there is no placement.
pub fn enumerated(ranking: Ranking, inputs: Inputs, index: &[u32; 768]) -> Option<Selection>
    requires { (inputs.cells ≤ 256) × ((b : Hypothesis) → ranking.best ≡ Some b → NearAlignment b.alignment) }
    ensures { result ≡ enumerated_with ranking ranking.best (λ (p : GridAlignment). capacity_to inputs p index.now inputs.cells) }
{
    let best = ranking.best?;
    let best_capacity = capacity::capacity(inputs, index, best.alignment);
    Some(selected(ranking, best, best_capacity))
}
