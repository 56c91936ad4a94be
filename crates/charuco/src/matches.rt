// Match.
ghost use Rattle.std.specs.Prelude.{◌≡◌};
ghost use Rattle.board_match.specs.Match.{match_answer, match_list};
ghost use Rattle.board_match.specs.Scores.{scored_answer, scored_list, scores_left};
ghost use Rattle.board_match.specs.Accuracy.{Accuracy};
ghost use Rattle.charuco.specs.Answers.{Tells};
ghost use Rattle.charuco.specs.Entries.{alignment_words, evidence_words, placement_words, choice_words, contributing_to, match_words, match_told};

use super::values;
use board_match::Match;
use grid_alignment::GridAlignment;
use ranking::{Evidence, Hypothesis};
use refusal::Refusal;

fn alignment_words(alignment: GridAlignment) -> [u32; 3]
    ensures { result ≡ alignment_words alignment }
{
    [
        alignment.turn as u32,
        alignment.tx.cast_unsigned(),
        alignment.ty.cast_unsigned(),
    ]
}

fn evidence_words(evidence: Evidence) -> [u32; 2]
    ensures { result ≡ evidence_words evidence }
{
    match evidence {
        Evidence::Number(x) => [1, floats::to_bits(x)],
        Evidence::Absent => [0, 0],
    }
}

fn placement_words(h: Hypothesis) -> [u32; 5]
    ensures { result ≡ placement_words h }
{
    let evidence = h.evidence;
    let at = alignment_words(h.alignment);
    let number = evidence_words(evidence);
    [at[0], at[1], at[2], number[0], number[1]]
}

fn choice_words(choice: Option<Hypothesis>) -> [u32; 6]
    ensures { result ≡ choice_words choice }
{
    match choice {
        Some(h) => {
            let p = placement_words(h);
            [1, p[0], p[1], p[2], p[3], p[4]]
        }
        None => [0, 0, 0, 0, 0, 0],
    }
}

// Without a placement no cell contributes.
fn contributing_to(choice: Option<Hypothesis>) -> usize
    ensures { result ≡ contributing_to choice }
{
    match choice {
        Some(h) => h.contributing_cells,
        None => 0,
    }
}

fn match_words(m: Match) -> [u32; 19]
    ensures { result ≡ match_words m }
{
    let runner_up = m.runner_up;
    let best = placement_words(m.best);
    let next = choice_words(runner_up);
    let corners = alignment_words(m.corners);
    let best_cells = m.best.contributing_cells;
    let next_cells = contributing_to(runner_up);
    [
        best[0],
        best[1],
        best[2],
        best[3],
        best[4],
        next[0],
        next[1],
        next[2],
        next[3],
        next[4],
        next[5],
        floats::to_bits(m.margin),
        values::count_word(m.placements),
        corners[0],
        corners[1],
        corners[2],
        values::count_word(m.markers),
        values::count_word(best_cells),
        values::count_word(next_cells),
    ]
}

fn tell_match(answer: Result<Match, Refusal>, values: &mut [u32]) -> u32
    ensures { Tells (match_told answer) result values.old values.new }
{
    match answer {
        Ok(m) => {
            let words = match_words(m);
            values::worked(values, &words)
        }
        Err(refusal) => values::refused(values, refusal),
    }
}

pub fn charuco_match_board(bytes: &[u8], markers: &mut [u32], values: &mut [u32]) -> u32
    ensures answer { Tells (match_told (match_answer bytes.now markers.old)) result values.old values.new }
    ensures list { markers.new ≡ match_list bytes.now markers.old }
    ensures accuracy { Accuracy bytes.now (match_answer bytes.now markers.old) }
{
    let answer = board_match::match_board(bytes, markers);
    tell_match(answer, values)
}

pub fn charuco_match_board_with_scores(
    bytes: &[u8],
    scores: &mut [f32],
    markers: &mut [u32],
    values: &mut [u32],
) -> u32
    ensures answer { Tells (match_told (scored_answer bytes.now scores.old markers.old)) result values.old
        values.new }
    ensures list { markers.new ≡ scored_list bytes.now scores.old markers.old }
    ensures scores { scores.new ≡ scores_left bytes.now scores.old markers.old }
    ensures accuracy { Accuracy bytes.now (scored_answer bytes.now scores.old markers.old) }
{
    let answer = board_match::match_board_with_scores(bytes, scores, markers);
    tell_match(answer, values)
}
