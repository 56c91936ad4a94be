// The offsets of a record's fields, and the fields before its cells.
ghost use Rattle.std.specs.Prelude.{◌≡◌, ℕ, ◌+◌, ◌*◌, ◌^◌, ◌<◌, ◌≤◌, get_or};
ghost use Rattle.matcher.specs.Codes.{bit};
ghost use Rattle.shot_record.specs.Fields.{is_set, number, codes_at, grid_size, fields_of};
ghost use Rattle.shot_record.specs.Shots.{setting as setting_of, shot};
ghost use Rattle.shot_record.specs.Answers.{of_pattern, config_of, spec_of};

use super::{Record, numbers};
use board::CharucoBoardSpec;
use score_matrix::{BoardMatchConfig, table};

// Offsets are in bytes from the start of the record.
#[derive(Clone, Copy)]
pub struct Fields {
    pub map: u8,
    pub threshold_at: usize,
    pub px_at: usize,
    pub table_at: usize,
    pub least_weight_at: usize,
    pub rows_at: usize,
    pub code_count: usize,
    pub cell_count: usize,
    pub cell_map_at: usize,
    pub cells_at: usize,
    // Bytes in the grid of one sampled cell.
    pub grid_size: usize,
}

fn grid_size(bits: u8, border: u8) -> usize
    ensures { result ≡ grid_size bits border }
{
    let side = bits as usize + 2 * border as usize;
    side * side
}

pub fn locate(bytes: &[u8]) -> Fields
    ensures { result ≡ fields_of bytes.now }
{
    let map = numbers::byte_at(bytes, 0);
    let threshold_at = 1 + 4 * numbers::bit(map, 0);
    let px_at = threshold_at + 4 * numbers::bit(map, 1);
    let table_at = px_at + 4 * numbers::bit(map, 2);
    let least_weight_at = table_at + 2044 * numbers::bit(map, 3);
    let rows_at = least_weight_at + 4 * numbers::bit(map, 5);
    let code_count = numbers::count_at(bytes, rows_at + 12);
    let cell_count_at = rows_at + 14 + 8 * code_count;
    let cell_count = numbers::count_at(bytes, cell_count_at);
    let cell_map_at = cell_count_at + 2;
    Fields {
        map,
        threshold_at,
        px_at,
        table_at,
        least_weight_at,
        rows_at,
        code_count,
        cell_count,
        cell_map_at,
        cells_at: cell_map_at + (cell_count + 7) / 8,
        grid_size: grid_size(
            numbers::byte_at(bytes, rows_at + 2),
            numbers::byte_at(bytes, rows_at + 3),
        ),
    }
}

// A setting of the record, or its default as the bit pattern of an f32.
fn setting(bytes: &[u8], is_given: bool, at: usize, default: u32) -> f32
    requires { at ≤ 2 ^ 40 }
    ensures { (map k : ℕ) → is_given ≡ is_set map k → result ≡ of_pattern (setting_of (bit map k) (number 4 at bytes.now) default) }
{
    if is_given {
        return numbers::float_at(bytes, at);
    }
    floats::from_bits(default)
}

impl Record<'_> {
    // The defaults are 60, 0.05, 0.5 and 0.
    pub fn config(&self) -> BoardMatchConfig
        ensures { result ≡ config_of (shot self.now.bytes.now) }
    {
        let bytes = self.bytes;
        let f = self.fields;
        BoardMatchConfig {
            px_per_square: setting(bytes, numbers::is_set(f.map, 2), f.px_at, 0x4270_0000),
            alignment_min_margin: setting(bytes, numbers::is_set(f.map, 0), 1, 0x3D4C_CCCD),
            cell_weight_border_threshold: setting(
                bytes,
                numbers::is_set(f.map, 1),
                f.threshold_at,
                0x3F00_0000,
            ),
            least_weight: setting(bytes, numbers::is_set(f.map, 5), f.least_weight_at, 0),
        }
    }

    pub fn spec(&self) -> CharucoBoardSpec
        ensures { result ≡ spec_of (shot self.now.bytes.now) }
    {
        let bytes = self.bytes;
        let at = self.fields.rows_at;
        CharucoBoardSpec {
            rows: numbers::byte_at(bytes, at) as u32,
            cols: numbers::byte_at(bytes, at + 1) as u32,
            bits: numbers::byte_at(bytes, at + 2) as u32,
            border_bits: numbers::byte_at(bytes, at + 3) as u32,
            legacy_pattern: numbers::is_set(self.fields.map, 4),
            cell_size: numbers::float_at(bytes, at + 4),
            marker_size_rel: numbers::float_at(bytes, at + 8),
        }
    }

    // Does the record have its own table?
    pub fn sets_table(&self) -> bool
        ensures { result ≡ is_set self.now.fields.map 3 }
    {
        numbers::is_set(self.fields.map, 3)
    }

    // An entry of the record's own table or of the built-in one.
    pub fn table_entry(&self, k: usize) -> f32
        requires { k < 511 }
        ensures { result ≡ of_pattern (get_or (shot self.now.bytes.now).table k 0) }
    {
        if self.sets_table() {
            return numbers::float_at(self.bytes, self.fields.table_at + 4 * k);
        }
        table::built_in_table()[k]
    }

    pub fn code(&self, k: usize) -> u64
        requires { k < self.now.fields.code_count }
        ensures { result ≡ number 8 (codes_at self.now.bytes.now + 8 * k) self.now.bytes.now }
    {
        numbers::eight_at(self.bytes, self.fields.rows_at + 14 + 8 * k)
    }
}
