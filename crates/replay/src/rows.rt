// The effect of a row, by its kind: it adds to the lists, or compares a result computed from them.
use crate::{entries, texts};
use stored_rows::answers::{Answer, Shape};
use stored_rows::tally::{Effect, Used};
use stored_rows::{answers, lists, numbers, parts};

// Kind 0. Without a word there is no row.
fn emptied(count: usize) -> Effect {
    match count {
        0 => Effect::Nothing,
        1 => Effect::Emptied,
        _ => Effect::Unread,
    }
}

fn shape(arguments: u8, words: u8) -> Option<Shape> {
    Some(Shape { arguments, words })
}

// None for an unknown kind. Kinds are the numbers of the rows' file, for which an enum of 25 names would be no plainer.
fn shape_of(kind: u64) -> Option<Shape> {
    match kind {
        0x5 => shape(0, 14),
        0x6 => shape(1, 2),
        0x7 => shape(1, 3),
        0x8 => shape(1, 5),
        0x9 => shape(1, 2),
        0xA => shape(1, 19),
        0xB => shape(0, 1),
        0xC => shape(3, 1),
        0xD => shape(14, 2),
        0xE => shape(11, 2),
        0xF => shape(0, 1),
        0x10 => shape(3, 2),
        0x11 => shape(3, 3),
        0x12 => shape(3, 2),
        0x13 => shape(3, 2),
        0x14 => shape(3, 8),
        0x15 => shape(1, 16),
        0x16 => shape(1, 1),
        0x17 => shape(4, 1),
        0x18 => shape(4, 4),
        0x19 => shape(2, 19),
        0x1A => shape(1, 2),
        0x10D => shape(14, 2),
        0x10E => shape(11, 2),
        0x111 => shape(3, 3),
        _ => None,
    }
}

// The length of the output array that a row of kind A, D or E, 10D or 10E requests.
fn places_of(row: [u64; 32]) -> u64 {
    match numbers::kind(row[0]) {
        0xA => row[1],
        0xD => row[14],
        _ => row[11],
    }
}

// Kinds A, D and E, 10D and 10E.
fn answer_with_list(bytes: &[u8], words: &[u64], row: [u64; 32]) -> Answer {
    let mut list: [u32; 147500] = [0; 147500];
    let places = places_of(row).min(147500) as usize;
    entries::with_list(bytes, words, row, &mut list[..places])
}

// Kind 19: lengths of the output array and of the score array.
fn answer_with_scores(bytes: &[u8], row: [u64; 32]) -> Answer {
    let mut list: [u32; 4704] = [0; 4704];
    let mut scores: [f32; 8200] = [0.0; 8200];
    let places = row[1].min(4704) as usize;
    let elements = row[2].min(8200) as usize;
    entries::with_scores(bytes, &mut scores[..elements], &mut list[..places])
}

// Kind 1A: length of the output array.
fn answer_restated(bytes: &[u8], row: [u64; 32]) -> Answer {
    let mut sheet: [u8; 4096] = [0; 4096];
    let places = row[1].min(4096) as usize;
    entries::restated(bytes, &mut sheet[..places])
}

// The result for a row, from the used bytes and words.
fn answer(bytes: &[u8], words: &[u64], row: [u64; 32]) -> Answer {
    match numbers::kind(row[0]) {
        0xA | 0xD | 0xE => answer_with_list(bytes, words, row),
        0xC => entries::marker_cells(words, row),
        0xF => texts::of_match(words),
        0x19 => answer_with_scores(bytes, row),
        0x1A => answer_restated(bytes, row),
        kind if kind < 0x10 => entries::read(bytes, kind, row[1] as usize),
        _ => answers::of_part(parts::words_of(bytes, row)),
    }
}

// From the used bytes and words. Kind B takes the bytes as an array, as `place` does.
fn told(bytes: &[u8; 65536], words: &[u64], used: Used, row: [u64; 32]) -> Answer {
    if row[0] == 0xB {
        return entries::text(bytes, used.bytes);
    }
    let bytes = &bytes[..used.bytes.min(bytes.len())];
    let words = &words[..used.words.min(words.len())];
    answer(bytes, words, row)
}

fn asked(bytes: &[u8; 65536], words: &[u64], used: Used, row: [u64; 32], count: usize) -> Effect {
    match shape_of(row[0]) {
        Some(shape) if count == answers::row_length(shape) => {
            Effect::Asked(answers::agrees(told(bytes, words, used, row), row, shape))
        }
        _ => Effect::Unread,
    }
}

pub fn effect_of(
    bytes: &mut [u8; 65536],
    words: &mut [u64],
    used: Used,
    row: [u64; 32],
    count: usize,
) -> Effect {
    if row[0] == 0 {
        return emptied(count);
    }
    if row[0] < 3 {
        return lists::add_bytes(&mut bytes[..], used.bytes, row, count);
    }
    if row[0] < 5 {
        return lists::add_words(words, used.words, row, count);
    }
    asked(bytes, words, used, row, count)
}
