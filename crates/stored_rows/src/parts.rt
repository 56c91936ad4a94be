// Kinds 10 to 18: what no entry point returns by itself.
use super::answers::BEFORE;
use super::{layout, numbers};
use score_matrix::table;

fn two(first: u32, second: u32) -> [u32; 19] {
    let mut words = BEFORE;
    words[0] = first;
    words[1] = second;
    words
}

fn one(x: f32) -> [u32; 19] {
    let mut words = BEFORE;
    words[0] = floats::to_bits(x);
    words
}

fn turned_code(row: [u64; 32]) -> [u32; 19] {
    let side = numbers::byte(row[2]);
    let code = oracle_exports::oracle_rotate_code_u64(row[1], side, numbers::byte(row[3]));
    two(numbers::low(code), numbers::high(code))
}

fn corner_translation(turn: u8, tx: i16, ty: i16) -> [u32; 19] {
    two(
        oracle_exports::oracle_corner_translation(turn, tx, ty, 0).cast_unsigned(),
        oracle_exports::oracle_corner_translation(turn, tx, ty, 1).cast_unsigned(),
    )
}

fn turned_point(turn: u8, u: i16, v: i16) -> [u32; 19] {
    two(
        oracle_exports::oracle_turned(turn, u, v, 0).cast_unsigned(),
        oracle_exports::oracle_turned(turn, u, v, 1).cast_unsigned(),
    )
}

fn cell_corners(u: i16, v: i16, px: f32) -> [u32; 19] {
    let mut words = BEFORE;
    for k in 0..8u8 {
        let x = oracle_exports::oracle_cell_rect_corner(u, v, px, k / 2, k % 2);
        words[k as usize] = floats::to_bits(x);
    }
    words
}

// 16 entries from `first` on.
fn table_entries(first: u8) -> [u32; 19] {
    let mut words = BEFORE;
    for k in 0..16 {
        words[k] = floats::to_bits(oracle_exports::oracle_table_entry(16 * first as usize + k));
    }
    words
}

fn weight(row: [u64; 32]) -> [u32; 19] {
    one(oracle_exports::oracle_cell_weight(
        floats::from_bits(numbers::low(row[1])),
        floats::from_bits(numbers::low(row[2])),
        row[3] == 1,
        floats::from_bits(numbers::low(row[4])),
    ))
}

// The score of a grid, its evidence, and the code read.
fn score(grid: &[u8], row: [u64; 32]) -> [u32; 19] {
    let bits = numbers::byte(row[1]);
    let border = numbers::byte(row[2]);
    let threshold = numbers::byte(row[3]);
    let entries = table::built_in_table();
    let score = oracle_exports::oracle_score(&entries, grid, threshold, bits, border, row[4]);
    let code = oracle_exports::oracle_read_code(grid, threshold, bits, border);
    let mut words = two(
        floats::to_bits(score),
        floats::to_bits(oracle_exports::oracle_evidence(score, bits)),
    );
    words[2] = numbers::low(code);
    words[3] = numbers::high(code);
    words
}

// Kinds 12 to 14 take two signed 16-bit numbers.
fn by_point(kind: u64, bits: [u32; 32]) -> [u32; 19] {
    let turn = numbers::byte(bits[1] as u64);
    match kind {
        0x12 => corner_translation(turn, numbers::short(bits[2]), numbers::short(bits[3])),
        0x13 => turned_point(turn, numbers::short(bits[2]), numbers::short(bits[3])),
        _ => cell_corners(
            numbers::short(bits[1]),
            numbers::short(bits[2]),
            floats::from_bits(bits[3]),
        ),
    }
}

// The words for a row; those of a score for the last kind.
pub fn words_of(bytes: &[u8], row: [u64; 32]) -> [u32; 19] {
    match numbers::kind(row[0]) {
        0x10 => turned_code(row),
        0x11 => layout::words_of(row),
        0x15 => table_entries(numbers::byte(row[1] / 16)),
        0x16 => one(oracle_exports::oracle_null_score(numbers::byte(row[1]))),
        0x17 => weight(row),
        0x18 => score(bytes, row),
        _ => by_point(row[0], numbers::lows(row)),
    }
}
