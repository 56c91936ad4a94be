// The result of an entry point in the form of a row, and digests.
use super::numbers;
use super::numbers::Number;

// The returned number, the words in `values`, and the digest of the output array.
#[derive(Clone, Copy)]
pub struct Answer {
    pub number: u32,
    pub words: [u32; 19],
    pub digest: u32,
}

// The words of `values` before the call: element i is 7 × i + 3.
pub const BEFORE: [u32; 19] = [
    3, 10, 17, 24, 31, 38, 45, 52, 59, 66, 73, 80, 87, 94, 101, 108, 115, 122, 129,
];

// The numbers of arguments and words in a row of a kind.
#[derive(Clone, Copy)]
pub struct Shape {
    pub arguments: u8,
    pub words: u8,
}

// The length of a row: kind, arguments, number, words, digest.
pub fn row_length(shape: Shape) -> usize {
    shape.arguments as usize + shape.words as usize + 3
}

// The result of a function that is no entry point: it never fails and has no output array.
pub fn of_part(words: [u32; 19]) -> Answer {
    Answer {
        number: 0,
        words,
        digest: 0,
    }
}

// Are the first n words equal to those of the row after its kind, arguments and number?
fn same_words(words: [u32; 19], row: [u64; 32], arguments: u8, n: u8) -> bool {
    let first = arguments as usize + 2;
    for k in 0..n as usize {
        if u64::from(numbers::element(&words, k)) != numbers::element(&row, first + k) {
            return false;
        }
    }
    true
}

// The number follows the arguments, then the words and the digest.
pub fn agrees(answer: Answer, row: [u64; 32], shape: Shape) -> bool {
    let words = answer.words;
    let number_at = shape.arguments as usize + 1;
    let digest_at = number_at + 1 + shape.words as usize;
    if u64::from(answer.number) != numbers::element(&row, number_at) {
        return false;
    }
    if u64::from(answer.digest) != numbers::element(&row, digest_at) {
        return false;
    }
    same_words(words, row, shape.arguments, shape.words)
}

// The digest `h` after one more number.
pub fn after(h: u32, x: u32) -> u32 {
    (((h as u64) * 65599 + x as u64) % 4294967291) as u32
}

// A number of 64 bits counts as its low and its high half.
pub fn after_both(h: u32, x: u64) -> u32 {
    after(after(h, numbers::low(x)), numbers::high(x))
}

// The digest `before` after the bits of more numbers.
pub fn after_all<T: Number>(before: u32, list: &[T]) -> u32 {
    let mut h = before;
    for x in list {
        h = after(h, x.bits());
    }
    h
}

pub fn digest<T: Number>(list: &[T]) -> u32 {
    after_all(0, list)
}
