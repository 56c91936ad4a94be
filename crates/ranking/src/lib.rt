// Ranks placements in one pass: the best, the runner-up, and the margin between the two (hypothesis.rs).

#![tactic(auto)]

ghost use Rattle.std.specs.Prelude.{◌≡◌, [], ◌^◌, ◌<◌};
ghost use Rattle.ranking.specs.Greatest.{lies_below};
ghost use Rattle.ranking.specs.Margin.{margin as margin_of};
ghost use Rattle.ranking.specs.Ranking.{ranking_of, better as better_of, ranked as ranked_of, keeps_place, changes_nothing};

use grid_alignment::GridAlignment;

// The evidence of a placement. `Absent` (upstream's −∞) is below every number.
#[derive(Clone, Copy)]
pub enum Evidence {
    Number(f32),
    Absent,
}

// A placement (candidate grid alignment) with its evidence and its number of contributing cells, which does not affect the ranking.
#[derive(Clone, Copy)]
pub struct Hypothesis {
    pub alignment: GridAlignment,
    pub evidence: Evidence,
    pub contributing_cells: usize,
}

// The best of the placements seen, the best of the others, and the number seen.
#[derive(Clone, Copy)]
pub struct Ranking {
    pub best: Option<Hypothesis>,
    pub runner_up: Option<Hypothesis>,
    pub total: usize,
}

pub fn no_ranking() -> Ranking
    ensures { result ≡ ranking_of [] }
{
    Ranking {
        best: None,
        runner_up: None,
        total: 0,
    }
}

// `Absent` is below every number.
pub fn below(a: Evidence, b: Evidence) -> bool
    ensures { result ≡ lies_below a b }
{
    match (a, b) {
        (_, Evidence::Absent) => false,
        (Evidence::Absent, Evidence::Number(_)) => true,
        (Evidence::Number(x), Evidence::Number(y)) => x < y,
    }
}

// The better of `held` and h; on a tie `held`, the earlier one.
fn better(held: Option<Hypothesis>, h: Hypothesis) -> Option<Hypothesis>
    ensures { result ≡ better_of held h }
{
    match held {
        Some(b) if !below(b.evidence, h.evidence) => held,
        _ => Some(h),
    }
}

// Adds a placement: a new best makes the old one the runner-up.
pub fn ranked(ranking: Ranking, h: Hypothesis) -> Ranking
    requires { ranking.total < 2 ^ 32 }
    ensures { result ≡ ranked_of ranking h }
{
    let total = ranking.total + 1;
    match ranking.best {
        Some(b) if !below(b.evidence, h.evidence) => Ranking {
            best: Some(b),
            runner_up: better(ranking.runner_up, h),
            total,
        },
        _ => Ranking {
            best: Some(h),
            runner_up: ranking.best,
            total,
        },
    }
}

// Is `held` a placement not below this evidence? Then one with this evidence does not replace it.
fn keeps_place(held: Option<Hypothesis>, evidence: Evidence) -> bool
    ensures { result ≡ keeps_place held evidence }
{
    match held {
        None => false,
        Some(h) => !below(h.evidence, evidence),
    }
}

// Does a placement with this evidence leave best and runner-up unchanged?
// To check the runner-up alone would do for finite evidence, which each caller would have to require.
pub fn changes_nothing(
    best: Option<Hypothesis>,
    runner_up: Option<Hypothesis>,
    evidence: Evidence,
) -> bool
    ensures { result ≡ changes_nothing best runner_up evidence }
{
    keeps_place(runner_up, evidence) && keeps_place(best, evidence)
}

// f32::EPSILON, 2⁻²³
const EPSILON: f32 = 1.1920929e-7;

// The gap to the runner-up, normalised by the best's capacity.
pub fn margin(best: Evidence, best_capacity: f32, runner_up: Option<Hypothesis>) -> f32
    ensures { result ≡ margin_of best best_capacity runner_up }
{
    let Evidence::Number(x) = best else {
        return 0.0;
    };
    if x <= 0.0 {
        return 0.0;
    }
    let Some(second) = runner_up else {
        return 1.0;
    };
    let Evidence::Number(y) = second.evidence else {
        return 1.0;
    };
    // Not `best_capacity.max(EPSILON)`: the two differ if the capacity is NaN, and the definition (`at_least`) may not change.
    if best_capacity < EPSILON {
        (x - y) / EPSILON
    } else {
        (x - y) / best_capacity
    }
}
