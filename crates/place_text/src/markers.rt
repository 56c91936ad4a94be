// The lines of the markers. A marker has 18 words of the array that Match writes; a word past the array counts as 0.
ghost use Rattle.std.specs.Prelude.{◌≡◌, ◌∷◌, ◌++◌};
ghost use Rattle.place_text.specs.Numerals.{hex8, decimal, signed_word};
ghost use Rattle.place_text.specs.Text.{and_words, word_of, reading, marker_line, marker_lines};
ghost use Rattle.place_text.specs.Writing.{Wrote};

use super::writer::Page;

const STRIDE: usize = 18;

// Not `get`: the index of a word may exceed a `usize`, since `k` may be any number.
fn word(markers: &[u32], k: usize, w: usize) -> u32
    ensures { result ≡ word_of markers.now k w }
{
    if markers.len() / STRIDE < k {
        return 0;
    }
    let first = STRIDE * k;
    if markers.len() - first <= w {
        return 0;
    }
    markers[first + w]
}

impl<'a> Page<'a> {
    fn and_word(&mut self, markers: &[u32], k: usize, w: usize)
        ensures { Wrote (32 ∷ decimal (word_of markers.now k w)) self.old self.new }
    {
        self.and_decimal(word(markers, k, w) as u64);
    }

    fn and_signed_word(&mut self, markers: &[u32], k: usize, w: usize)
        ensures { Wrote (32 ∷ signed_word (word_of markers.now k w)) self.old self.new }
    {
        self.and_signed(word(markers, k, w).cast_signed());
    }

    // The code's high word follows its low word in the array.
    fn and_code(&mut self, markers: &[u32], k: usize)
        ensures { Wrote (32 ∷ (hex8 (word_of markers.now k 7) ++ hex8 (word_of markers.now k 6))) self.old self.new }
    {
        let low = word(markers, k, 6);
        let high = word(markers, k, 7);
        self.and_hex16(high, low);
    }

    fn and_float(&mut self, markers: &[u32], k: usize, w: usize)
        ensures { Wrote (32 ∷ hex8 (word_of markers.now k w)) self.old self.new }
    {
        self.and_hex8(word(markers, k, w));
    }

    // The last words of the line: Hamming distance, code, quotient.
    fn and_reading(&mut self, markers: &[u32], k: usize)
        ensures { Wrote (and_words (reading markers.now k)) self.old self.new }
    {
        self.and_word(markers, k, 5);
        self.and_code(markers, k);
        self.and_float(markers, k, 8);
        self.put(b'\n');
    }

    // Marker `k`: cell, id, u, v, turn, then the last words.
    fn put_marker(&mut self, markers: &[u32], k: usize)
        ensures { Wrote (marker_line markers.now k) self.old self.new }
    {
        self.put_all(b"marker");
        self.and_word(markers, k, 0);
        self.and_word(markers, k, 1);
        self.and_signed_word(markers, k, 2);
        self.and_signed_word(markers, k, 3);
        self.and_word(markers, k, 4);
        self.and_reading(markers, k);
    }

    // The first `count` markers.
    pub fn put_markers(&mut self, markers: &[u32], count: usize)
        ensures { Wrote (marker_lines markers.now count) self.old self.new }
    {
        self.at = self.at.min(self.text.len());
        for k in 0..count {
            self.put_marker(markers, k);
        }
    }
}
