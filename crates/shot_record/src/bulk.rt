// The lists before the cells, each read at once: the likelihood table and the codes.
ghost use Rattle.std.specs.Prelude.{◌≡◌, map, ◌^◌, ◌≤◌, replicate};
ghost use Rattle.score_matrix.specs.Table.{built_in};
ghost use Rattle.shot_record.specs.Shots.{numbers as numbers_of, first_codes, shot};
ghost use Rattle.shot_record.specs.Answers.{of_pattern};

use super::{Record, numbers};

// Writes the table that starts at an offset.
fn put_table(entries: &mut [f32; 511], bytes: &[u8], at: usize)
    requires { at ≤ 2 ^ 20 }
    ensures { entries.new ≡ map of_pattern (numbers_of 4 511 at bytes.now) }
{
    for k in 0..511 {
        entries[k] = numbers::float_at(bytes, at + 4 * k);
    }
}

// Writes the record's own table, if it has one, over the built-in one, so that no array is copied.
pub fn table(entries: &mut [f32; 511], input: &Record<'_>)
    requires { entries.old ≡ built_in }
    ensures { entries.new ≡ map of_pattern (shot input.now.bytes.now).table }
{
    if input.sets_table() {
        put_table(entries, input.bytes, input.fields.table_at);
    }
}

// The first 512 codes, enough for every marker that a board can have; 0 after the last. Writes to an array that the caller has cleared, so that no
// array is copied.
pub fn codes(codes: &mut [u64; 512], input: &Record<'_>)
    requires { codes.old ≡ replicate 512 0 }
    ensures { codes.new ≡ first_codes (shot input.now.bytes.now) }
{
    let count = input.fields.code_count.min(512);
    for k in 0..count {
        codes[k] = input.code(k);
    }
}
