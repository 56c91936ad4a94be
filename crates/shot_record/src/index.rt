// The index of the cells: each cell is parsed once, in one pass over the record, and a match looks it up here. Grids are not copied.
// The array is packed by rule (fixed memory): three words, 12 bytes, for each cell; a struct of the same fields takes 16.
ghost use Rattle.std.specs.Prelude.{◌≡◌, true, ◌*◌, ◌<◌};
ghost use Rattle.lent_list.specs.Parts.{KeptFrom};
ghost use Rattle.shot_record.specs.Fields.{cell_count, AtCell};
ghost use Rattle.shot_record.specs.Shots.{whole_record, cell_of};
ghost use Rattle.shot_record.specs.Answers.{grid_with};
ghost use Rattle.shot_record.specs.Index.{words_of, with_words, point_in, u_in, v_in, border_in, threshold_in, Index, HasGrid};

use super::cells::Cursor;
use super::{Record, numbers};

// The words of one cell of a well-formed record.
fn words(input: &Record<'_>, c: Cursor) -> [u32; 3]
    requires { AtCell input.now.bytes.now c × (whole_record input.now.bytes.now ≡ true) }
    ensures { result ≡ words_of input.now.bytes.now c.cell }
{
    let point = input.point(c);
    if !input.is_sampled(c.cell) {
        return [point, 0, 0];
    }
    let place = input.sample_place(c);
    let grid = (place + 5) as u32;
    [
        point,
        numbers::four_at(input.bytes, place),
        grid * 256 + numbers::byte_at(input.bytes, place + 4) as u32,
    ]
}

// Three assignments, as `with_words` defines it: `copy_from_slice` on `index[3 * k..3 * k + 3]` is no plainer.
fn put(index: &mut [u32; 768], k: usize, words: &[u32; 3])
    requires { k < 256 }
    ensures { index.new ≡ with_words index.old k words.now }
{
    index[3 * k] = words[0];
    index[3 * k + 1] = words[1];
    index[3 * k + 2] = words[2];
}

// Covers the first 256 cells of a record that passes question 21. Elements after their words do not change.
pub fn fill(index: &mut [u32; 768], input: &Record<'_>)
    requires { whole_record input.now.bytes.now ≡ true }
    ensures filled { Index input.now.bytes.now index.new }
    ensures kept { KeptFrom 0 (3 * cell_count input.now.bytes.now) index.old index.new }
{
    let count = input.fields.cell_count.min(256);
    let mut c = input.first();
    for k in 0..count {
        put(index, k, &words(input, c));
        c = input.next(c);
    }
}

// The grid point of cell k as one word: equal words are equal points.
pub fn point(index: &[u32; 768], k: usize) -> u32
    requires { k < 256 }
    ensures { result ≡ point_in index.now k }
{
    index[3 * k]
}

pub fn u(index: &[u32; 768], k: usize) -> i16
    requires { k < 256 }
    ensures { result ≡ u_in index.now k }
{
    numbers::coordinate(index[3 * k] % 0x1_0000)
}

pub fn v(index: &[u32; 768], k: usize) -> i16
    requires { k < 256 }
    ensures { result ≡ v_in index.now k }
{
    numbers::coordinate(index[3 * k] / 0x1_0000 % 0x1_0000)
}

pub fn border(index: &[u32; 768], k: usize) -> Option<f32>
    requires { k < 256 }
    ensures { result ≡ border_in index.now k }
{
    if index[3 * k + 2] == 0 {
        return None;
    }
    Some(floats::from_bits(index[3 * k + 1]))
}

// 0 for an unsampled cell.
pub fn threshold(index: &[u32; 768], k: usize) -> u8
    requires { k < 256 }
    ensures { result ≡ threshold_in index.now k }
{
    (index[3 * k + 2] % 256) as u8
}

// The grid of cell k, empty for an unsampled cell. `size` is the length of a grid.
pub fn grid<'a>(bytes: &'a [u8], size: usize, index: &[u32; 768], k: usize) -> &'a [u8]
    requires { HasGrid bytes.now size index.now k }
    ensures { result.now ≡ grid_with (cell_of bytes.now k).sample }
{
    if index[3 * k + 2] == 0 {
        return &bytes[..0];
    }
    let first = (index[3 * k + 2] / 256) as usize;
    &bytes[first..first + size]
}
