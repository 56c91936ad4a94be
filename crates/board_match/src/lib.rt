// Match checks a shot record, finds the placement of its cells on the board and emits the markers (board_match/mod.rs).

#![tactic(auto)]

ghost use Rattle.std.specs.Prelude.{◌≡◌, true, IfOk, IfErr, map, length, replicate};
ghost use Rattle.std.proofs.Math.Option.{none, some};
ghost use Rattle.score_matrix.specs.Table.{built_in};
ghost use Rattle.shot_record.specs.Shots.{first_codes, shot, whole_record, parse};
ghost use Rattle.shot_record.specs.Answers.{of_pattern};
ghost use Rattle.shot_record.specs.Index.{Index};
ghost use Rattle.hypothesis.specs.Search.{enumerate};
ghost use Rattle.hypothesis.specs.declared.Inputs.{Inputs};
ghost use Rattle.board_match.specs.Questions.{asked_before15, after_record, asked_with};
ghost use Rattle.board_match.specs.Match.{match_answer, match_list, Gives};
ghost use Rattle.board_match.specs.Scores.{scored_answer, scored_list, scores_left, GivesScored};
ghost use Rattle.board_match.specs.Accuracy.{Accuracy};

mod questions;

use grid_alignment::{GridAlignment, alignments};
use hypothesis::{Inputs, LoadedShot, Selection, lookups, search};
use ranking::Hypothesis;
use refusal::Refusal;
use score_matrix::table::built_in_table;
use shot_record::{Record, bulk, index};

// A placed shot: the best placement and its runner-up, the margin between them, the number of placements, the alignment of the corners, and the
// number of emitted markers.
#[derive(Clone, Copy)]
pub struct Match {
    pub best: Hypothesis,
    pub runner_up: Option<Hypothesis>,
    pub margin: f32,
    pub placements: usize,
    pub corners: GridAlignment,
    pub markers: usize,
}

// Questions 1 to 14, 22 and 23 of a record that passes question 21, for an output array of so many words.
fn before_15(
    input: &Record<'_>,
    table: &[f32; 511],
    codes: &[u64; 512],
    index: &[u32; 768],
    words: usize,
) -> Result<Inputs, Refusal>
    requires { Index input.now.bytes.now index.now × (whole_record input.now.bytes.now ≡ true)
        × (table.now ≡ map of_pattern (shot input.now.bytes.now).table)
        × (codes.now ≡ first_codes (shot input.now.bytes.now)) }
    ensures { result ≡ asked_with (asked_before15 (shot input.now.bytes.now) words) (shot input.now.bytes.now) }
{
    let board = input.board(codes)?;
    let config = input.config();
    questions::from_9(input, config, table, index, words)?;
    Ok(Inputs {
        cells: input.fields.cell_count,
        grid_size: input.fields.grid_size,
        board,
        config,
    })
}

// Questions 16 and 17 of the best placement, with the emission of its markers between them.
fn emit_best(
    loaded: &LoadedShot<'_>,
    selection: Selection,
    markers: &mut [u32],
) -> Result<Match, Refusal>
    requires { (enumerate (shot loaded.now.bytes.now) ≡ Some selection)
        × (asked_before15 (shot loaded.now.bytes.now) (length markers.old) ≡ none) }
    ensures { Gives loaded.now.bytes.now markers.old result markers.new }
{
    let margin = selection.margin;
    if !questions::margin_passes(loaded.inputs.config, margin) {
        return Err(Refusal::Margin { margin });
    }
    let best = selection.best;
    let count = emit::emit_markers(loaded, best.alignment, markers);
    if count == 0 {
        return Err(Refusal::NoMarkers);
    }
    Ok(Match {
        best,
        runner_up: selection.runner_up,
        margin,
        placements: selection.total,
        corners: alignments::cell_to_corner_alignment(best.alignment),
        markers: count,
    })
}

// Questions 15 to 17, from the result of the search.
fn place_found(
    loaded: &LoadedShot<'_>,
    found: Option<Selection>,
    markers: &mut [u32],
) -> Result<Match, Refusal>
    requires { (found ≡ enumerate (shot loaded.now.bytes.now))
        × (asked_before15 (shot loaded.now.bytes.now) (length markers.old) ≡ none) }
    ensures { Gives loaded.now.bytes.now markers.old result markers.new }
{
    emit_best(loaded, found.ok_or(Refusal::TranslationWindow)?, markers)
}

// Questions 24 and 15 to 17: between them the score array is filled, and searched.
fn match_scored(
    loaded: &LoadedShot<'_>,
    scores: &mut [f32],
    markers: &mut [u32],
) -> Result<Match, Refusal>
    requires { asked_before15 (shot loaded.now.bytes.now) (length markers.old) ≡ none }
    ensures { GivesScored loaded.now.bytes.now scores.old markers.old result scores.new markers.new }
{
    if !score_list::has_room(loaded.inputs, scores.len()) {
        return Err(Refusal::ScoreListTooShort);
    }
    score_list::fill(scores, loaded);
    let found = lookups::enumerate_hypotheses(loaded.inputs, loaded.index, scores);
    place_found(loaded, found, markers)
}

// Reads table, codes and index of a record, and checks questions 21, 1 to 14, 22 and 23. At entry `table` is the built-in one, and `codes` is cleared.
// The three arrays are the caller's: there is no heap, and a struct of them by value would be a copy on the stack.
fn load<'a>(
    table: &'a mut [f32; 511],
    codes: &'a mut [u64; 512],
    index: &'a mut [u32; 768],
    bytes: &'a [u8],
    words: usize,
) -> Result<LoadedShot<'a>, Refusal>
    requires { (table.old ≡ built_in) × (codes.old ≡ replicate 512 0) }
    ensures refused { IfErr result (λ r. after_record (parse bytes.now) words ≡ some r) }
    ensures passed { IfOk result (λ loaded. (loaded.bytes.now ≡ bytes.now) × (asked_before15 (shot loaded.bytes.now) words ≡ none)) }
{
    // Question 21 comes first, so that table, codes and index are read from a whole record only.
    let record = Record::parse(bytes)?;
    bulk::table(table, &record);
    bulk::codes(codes, &record);
    index::fill(index, &record);
    let inputs = before_15(&record, table, codes, index, words)?;
    Ok(LoadedShot {
        bytes,
        inputs,
        index,
        table,
        codes,
    })
}

// The placement of a shot record on its board. Writes 18 words for each marker to the start of the output array; on error the array does not change.
pub fn match_board(bytes: &[u8], markers: &mut [u32]) -> Result<Match, Refusal>
    ensures answer { result ≡ match_answer bytes.now markers.old }
    ensures list { markers.new ≡ match_list bytes.now markers.old }
    ensures accuracy { Accuracy bytes.now result }
{
    let mut table = built_in_table();
    let mut codes: [u64; 512] = [0; 512];
    let mut index: [u32; 768] = [0; 768];
    let loaded = load(&mut table, &mut codes, &mut index, bytes, markers.len())?;
    place_found(&loaded, search::enumerate_hypotheses(&loaded), markers)
}

// The same match by another search (document 02, 2.6): it first fills `scores` with the score of each cell for each marker and turn, cells × markers ×
// 4 elements, and then looks them up. It has arrays of its own, as what `load` returns borrows them. Errors 15 to 17 leave the scores filled; on other errors no array changes.
pub fn match_board_with_scores(
    bytes: &[u8],
    scores: &mut [f32],
    markers: &mut [u32],
) -> Result<Match, Refusal>
    ensures answer { result ≡ scored_answer bytes.now scores.old markers.old }
    ensures list { markers.new ≡ scored_list bytes.now scores.old markers.old }
    ensures scores { scores.new ≡ scores_left bytes.now scores.old markers.old }
    ensures accuracy { Accuracy bytes.now result }
{
    let mut table = built_in_table();
    let mut codes: [u64; 512] = [0; 512];
    let mut index: [u32; 768] = [0; 768];
    let loaded = load(&mut table, &mut codes, &mut index, bytes, markers.len())?;
    match_scored(&loaded, scores, markers)
}
