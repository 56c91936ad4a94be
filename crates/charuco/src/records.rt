// Reading a shot record.
ghost use Rattle.std.specs.Prelude.{◌≡◌};
ghost use Rattle.board.specs.Numbering.{as_one};
ghost use Rattle.shot_record.specs.Shots.{parse};
ghost use Rattle.shot_record.specs.Answers.{header_answer, entry_answer, code_answer, cell_answer, part_answer, grid_answer};
ghost use Rattle.charuco.specs.Answers.{Tells};
ghost use Rattle.charuco.specs.Records.{header_words, header_told, entry_told, code_told, cell_words, cell_told, coordinate_word, grid_told, Lies};

use super::values;
use refusal::Refusal;
use shot_record::{Header, ReadCell, cells};

fn header_words(h: Header) -> [u32; 14]
    ensures { result ≡ header_words h }
{
    let config = h.config;
    let spec = h.spec;
    [
        h.map as u32,
        floats::to_bits(config.alignment_min_margin),
        floats::to_bits(config.cell_weight_border_threshold),
        floats::to_bits(config.px_per_square),
        spec.rows,
        spec.cols,
        spec.bits,
        spec.border_bits,
        floats::to_bits(spec.cell_size),
        floats::to_bits(spec.marker_size_rel),
        values::count_word(h.code_count),
        values::count_word(h.cell_count),
        u32::from(spec.legacy_pattern),
        floats::to_bits(config.least_weight),
    ]
}

fn tell_header(answer: Result<Header, Refusal>, values: &mut [u32]) -> u32
    ensures { Tells (header_told answer) result values.old values.new }
{
    match answer {
        Ok(h) => {
            let words = header_words(h);
            values::worked(values, &words)
        }
        Err(refusal) => values::refused(values, refusal),
    }
}

pub fn charuco_read_header(bytes: &[u8], values: &mut [u32]) -> u32
    ensures { Tells (header_told (header_answer bytes.now)) result values.old values.new }
{
    tell_header(shot_record::read_header(bytes), values)
}

fn tell_entry(answer: Result<Option<f32>, Refusal>, values: &mut [u32]) -> u32
    ensures { Tells (entry_told answer) result values.old values.new }
{
    match answer {
        Ok(Some(x)) => values::worked(values, &[1, floats::to_bits(x)]),
        Ok(None) => values::worked(values, &[0, 0]),
        Err(refusal) => values::refused(values, refusal),
    }
}

pub fn charuco_table_entry(bytes: &[u8], k: usize, values: &mut [u32]) -> u32
    ensures { Tells (entry_told (entry_answer (parse bytes.now) k)) result values.old values.new }
{
    tell_entry(shot_record::table_entry(bytes, k), values)
}

fn tell_code(answer: Result<Option<u64>, Refusal>, values: &mut [u32]) -> u32
    ensures { Tells (code_told answer) result values.old values.new }
{
    match answer {
        Ok(Some(code)) => values::worked(
            values,
            &[
                1,
                (code % 0x1_0000_0000) as u32,
                (code / 0x1_0000_0000) as u32,
            ],
        ),
        Ok(None) => values::worked(values, &[0, 0, 0]),
        Err(refusal) => values::refused(values, refusal),
    }
}

pub fn charuco_code(bytes: &[u8], k: usize, values: &mut [u32]) -> u32
    ensures { Tells (code_told (code_answer (parse bytes.now) k)) result values.old values.new }
{
    tell_code(shot_record::code(bytes, k), values)
}

fn coordinate_word(z: i16) -> u32
    ensures { result ≡ coordinate_word z }
{
    i32::from(z).cast_unsigned()
}

fn cell_words(cell: ReadCell) -> [u32; 5]
    ensures { result ≡ cell_words cell }
{
    let u = coordinate_word(cell.u);
    let v = coordinate_word(cell.v);
    match cell.sample {
        Some(sample) => [
            2,
            u,
            v,
            floats::to_bits(sample.fraction),
            sample.threshold as u32,
        ],
        None => [1, u, v, 0, 0],
    }
}

fn tell_cell(answer: Result<Option<ReadCell>, Refusal>, values: &mut [u32]) -> u32
    ensures { Tells (cell_told answer) result values.old values.new }
{
    match answer {
        Ok(Some(cell)) => values::worked(values, &cell_words(cell)),
        Ok(None) => values::worked(values, &[0, 0, 0, 0, 0]),
        Err(refusal) => values::refused(values, refusal),
    }
}

pub fn charuco_cell(bytes: &[u8], k: usize, values: &mut [u32]) -> u32
    ensures { Tells (cell_told (cell_answer (parse bytes.now) k)) result values.old values.new }
{
    tell_cell(shot_record::cell(bytes, k), values)
}

// The byte range of the grid of cell k.
pub fn charuco_grid(bytes: &[u8], k: usize, values: &mut [u32]) -> u32
    ensures answer { Tells (grid_told bytes.now (header_answer bytes.now) k) result values.old values.new }
    ensures grid { Lies bytes.now (part_answer bytes.now (parse bytes.now) k)
        (grid_answer (parse bytes.now) k) }
{
    let header = shot_record::read_header(bytes);
    let part = cells::grid_part(bytes, k);
    match header {
        Ok(_) => {
            let words: [u32; 2] = [
                values::count_word(part.first),
                values::count_word(part.end - part.first),
            ];
            values::worked(values, &words)
        }
        Err(refusal) => values::refused(values, refusal),
    }
}
