// The checks of Match after those of the board (documents 01 and 02): questions 9 to 14 and 23 before the search, and 16.
ghost use Rattle.std.specs.Prelude.{◌≡◌, ◌&&◌, true, map, ◌≤◌};
ghost use Rattle.std.proofs.Math.Option.{none};
ghost use Rattle.integers.specs.Tests.{every};
ghost use Rattle.shot_record.specs.Shots.{shot, whole_record};
ghost use Rattle.shot_record.specs.Answers.{of_pattern, config_of};
ghost use Rattle.shot_record.specs.Index.{Index};
ghost use Rattle.integers.specs.Distance.{is_within};
ghost use Rattle.board_match.specs.Questions.{in_unit_interval, settings_answer, table_answer, asked_from9, told_answer};
ghost use Rattle.board_match.specs.Entries.{placed_in, border_answer, sampled_in};
ghost use Rattle.board_match.specs.Match.{margin_passes};

use refusal::Refusal;
use score_matrix::{BoardMatchConfig, table};
use shot_record::{Record, index};

// Two tests as in the definition: `contains` would compare two f32 values by `partial_cmp`.
fn in_unit_interval(x: f32) -> bool
    ensures { result ≡ in_unit_interval x }
{
    0.0 <= x && x <= 1.0
}

// Question 9.
fn settings(config: BoardMatchConfig) -> bool
    ensures { result ≡ settings_answer config }
{
    floats::is_finite(config.alignment_min_margin)
        && floats::is_finite(config.cell_weight_border_threshold)
        && floats::is_finite(config.px_per_square)
        && in_unit_interval(config.least_weight)
}

// Question 10. Only the record's own table is checked: the built-in one passes.
fn table_passes(input: &Record<'_>, entries: &[f32; 511]) -> bool
    requires { entries.now ≡ map of_pattern (shot input.now.bytes.now).table }
    ensures { result ≡ table_answer (shot input.now.bytes.now) }
{
    !input.sets_table() || table::is_table(entries)
}

fn within(z: i16) -> bool
    ensures { result ≡ is_within 4096 z }
{
    (-4096..=4096).contains(&z)
}

fn point(u: i16, v: i16) -> bool
    ensures { result ≡ (is_within 4096 u && is_within 4096 v) }
{
    within(u) && within(v)
}

// Question 12 of the indexed cells, at most 256.
fn all_placed(index: &[u32; 768], count: usize) -> bool
    requires { count ≤ 256 }
    ensures { result ≡ every (placed_in index.now) count }
{
    (0..count).all(|k| point(index::u(index, k), index::v(index, k)))
}

fn sample(border: Option<f32>) -> bool
    ensures { result ≡ border_answer border }
{
    border.is_none_or(|x| in_unit_interval(x))
}

// Question 13 of the indexed cells, at most 256. In a well-formed record every grid is complete.
fn all_sampled(index: &[u32; 768], count: usize) -> bool
    requires { count ≤ 256 }
    ensures { result ≡ every (sampled_in index.now) count }
{
    (0..count).all(|k| sample(index::border(index, k)))
}

// Questions 9 to 14, with 23 after 12.
pub fn from_9(
    input: &Record<'_>,
    config: BoardMatchConfig,
    entries: &[f32; 511],
    index: &[u32; 768],
    words: usize,
) -> Result<(), Refusal>
    requires { Index input.now.bytes.now index.now × (whole_record input.now.bytes.now ≡ true) × (config ≡ config_of (shot input.now.bytes.now))
        × (entries.now ≡ map of_pattern (shot input.now.bytes.now).table) }
    ensures { result ≡ told_answer (asked_from9 (shot input.now.bytes.now) words none) }
{
    if !settings(config) {
        return Err(Refusal::InvalidSettings);
    }
    if !table_passes(input, entries) {
        return Err(Refusal::InvalidTable);
    }
    let count = input.fields.cell_count;
    if count == 0 {
        return Err(Refusal::NoCells);
    }
    if 256 < count {
        return Err(Refusal::CellsOutOfRange);
    }
    if !all_placed(index, count) {
        return Err(Refusal::CellsOutOfRange);
    }
    if !points::all_different(index, count) {
        return Err(Refusal::RepeatedPoint);
    }
    if !all_sampled(index, count) {
        return Err(Refusal::InvalidSample);
    }
    if words < 18 * count {
        return Err(Refusal::ListTooShort);
    }
    Ok(())
}

// Question 16: Is the margin not below the minimum?
pub fn margin_passes(config: BoardMatchConfig, margin: f32) -> bool
    ensures { result ≡ margin_passes config margin }
{
    !(margin < config.alignment_min_margin)
}
