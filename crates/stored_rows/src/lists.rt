// The two lists that rows build up, of bytes and of words, the slices of them that are passed, and the output arrays.
use super::numbers;
use super::numbers::Number;
use super::tally::Effect;

// The length with `n` more after `at`, if there are some to add and room for them.
fn end_of(at: usize, n: usize, room: usize) -> Option<usize> {
    if n == 0 || room < n || room - n < at {
        return None;
    }
    Some(at + n)
}

// How many bytes or words a row of kinds 1 to 4 adds; none if it does not have its number of words.
fn added_count(row: [u64; 32], count: usize) -> usize {
    let n = row[1];
    match row[0] {
        1 => {
            if n < 241 && count == 2 + (n as usize + 7) / 8 {
                n as usize
            } else {
                0
            }
        }
        3 => count.saturating_sub(1),
        _ => { if count == 3 { n as usize } else { 0 } }
    }
}

// Byte k of those that a row adds: a row of kind 1 has 8 in a word, the first lowest.
fn byte_of(row: [u64; 32], k: usize) -> u8 {
    if row[0] == 2 {
        return numbers::byte(row[2]);
    }
    if 239 < k {
        return 0;
    }
    let word = row[2 + k / 8];
    let shift = (8 * (k % 8)) as u32;
    numbers::byte(word >> shift)
}

// Puts item(0), item(1), … into the list from `at` up to `end`.
fn put_each<T: Copy, F: Fn(usize) -> T>(list: &mut [T], at: usize, end: usize, item: F)
    requires { F.IsAlwaysCallable item }
{
    if let Some(part) = list.get_mut(at..end) {
        for k in 0..part.len() {
            part[k] = item(k);
        }
    }
}

// Kinds 1 and 2.
pub fn add_bytes(bytes: &mut [u8], at: usize, row: [u64; 32], count: usize) -> Effect {
    match end_of(at, added_count(row, count), bytes.len()) {
        Some(end) => {
            put_each(bytes, at, end, |k| byte_of(row, k));
            Effect::Bytes(end)
        }
        None => Effect::Unread,
    }
}

fn word_of(row: [u64; 32], k: usize) -> u64 {
    if row[0] == 4 {
        return row[2];
    }
    if 30 < k {
        return 0;
    }
    row[1 + k]
}

// Kinds 3 and 4.
pub fn add_words(words: &mut [u64], at: usize, row: [u64; 32], count: usize) -> Effect {
    match end_of(at, added_count(row, count), words.len()) {
        Some(end) => {
            put_each(words, at, end, |k| word_of(row, k));
            Effect::Words(end)
        }
        None => Effect::Unread,
    }
}

// A corner has four words: whether it has a grid point, u, v and its score.
pub fn scores(words: &[u64]) -> [f32; 1100] {
    let mut scores: [f32; 1100] = [0.0; 1100];
    for i in 0..1100 {
        scores[i] = floats::from_bits(numbers::low(numbers::element(words, 4 * i + 3)));
    }
    scores
}

pub fn grid(words: &[u64]) -> [i32; 3300] {
    let mut grid: [i32; 3300] = [0; 3300];
    for i in 0..3300 {
        grid[i] = numbers::low(numbers::element(words, i / 3 * 4 + i % 3)).cast_signed();
    }
    grid
}

// The words after those of so many corners.
pub fn inliers(words: &[u64], corners: usize) -> [usize; 1100] {
    let mut inliers: [usize; 1100] = [0; 1100];
    let first = 4 * (corners % 1101);
    for i in 0..1100 {
        inliers[i] = numbers::element(words, first + i) as usize;
    }
    inliers
}

// 32-bit words from index `first` on.
pub fn short_words(words: &[u64], first: u8) -> [u32; 8200] {
    let mut list: [u32; 8200] = [0; 8200];
    for i in 0..8200 {
        list[i] = numbers::low(numbers::element(words, first as usize + i));
    }
    list
}

// Is a number the least of its four rotations, their canonical representative?
fn is_least_turn(number: u64, side: u8) -> bool {
    number <= oracle_exports::oracle_rotate_code_u64(number, side, 1)
        && number <= oracle_exports::oracle_rotate_code_u64(number, side, 2)
        && number <= oracle_exports::oracle_rotate_code_u64(number, side, 3)
}

// Appends a number if it is the least of its rotations. Returns the count.
fn put_code(codes: &mut [u64], found: usize, number: u64, side: u8) -> usize {
    if found < codes.len() && is_least_turn(number, side) {
        codes[found] = number;
        return found + 1;
    }
    found
}

fn put_codes(codes: &mut [u64], side: u8, count: usize) {
    let mut found = 0;
    for number in 0..2048 {
        if count <= found {
            break;
        }
        found = put_code(codes, found, number, side);
    }
}

// The numbers below 2,048, ascending, that are the least of their rotations, then 0; but `value` at `place`, if there is such an index. No more than
// `count` are searched for: the caller passes so many.
pub fn codes(side: u64, count: usize, place: u64, value: u64) -> [u64; 1025] {
    let mut codes: [u64; 1025] = [0; 1025];
    put_codes(&mut codes, side.min(8) as u8, count);
    if let Some(code) = codes.get_mut(place as usize) {
        *code = value;
    }
    codes
}

// The bits of element i of an output array before the call.
fn filling(i: usize) -> u32 {
    if 0xF_FFFF < i {
        return 0;
    }
    (7 * i + 3) as u32
}

pub fn fill<T: Number>(list: &mut [T]) {
    for i in 0..list.len() {
        list[i] = T::of_bits(filling(i));
    }
}
