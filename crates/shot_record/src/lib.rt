// Parses the shot record: board, settings, marker codes and observed cells of one shot, as bytes.
// Every function of this file accepts every record; one that is not well-formed gets error 21. A match reads the fields before the cells with
// `fields` and `bulk`, and each cell once with `index`.

#![tactic(auto)]

ghost use Rattle.std.specs.Prelude.{◌≡◌};
ghost use Rattle.shot_record.specs.Shots.{parse};
ghost use Rattle.shot_record.specs.Answers.{header_answer, entry_answer, code_answer, cell_answer, grid_answer};

pub mod bulk;
pub mod cells;
pub mod fields;
pub mod index;
mod maps;
pub mod numbers;
pub mod questions;
mod record;

use board::CharucoBoardSpec;
pub use record::Record;
use refusal::Refusal;
use score_matrix::BoardMatchConfig;

// The fields before the cells. `map` has the presence flags of the settings; a setting whose flag is 0 has its default.
#[derive(Clone, Copy)]
pub struct Header {
    pub map: u8,
    pub config: BoardMatchConfig,
    pub spec: CharucoBoardSpec,
    pub code_count: usize,
    pub cell_count: usize,
}

// The black fraction of a sampled cell's border, and its threshold.
#[derive(Clone, Copy)]
pub struct ReadSample {
    pub fraction: f32,
    pub threshold: u8,
}

// A cell's grid point and its sample, if it has one.
#[derive(Clone, Copy)]
pub struct ReadCell {
    pub u: i16,
    pub v: i16,
    pub sample: Option<ReadSample>,
}

pub fn read_header(bytes: &[u8]) -> Result<Header, Refusal>
    ensures { result ≡ header_answer bytes.now }
{
    let record = Record::parse(bytes)?;
    Ok(Header {
        map: record.fields.map,
        config: record.config(),
        spec: record.spec(),
        code_count: record.fields.code_count,
        cell_count: record.fields.cell_count,
    })
}

// An entry of the record's own likelihood table or of the built-in one; none past the last.
pub fn table_entry(bytes: &[u8], k: usize) -> Result<Option<f32>, Refusal>
    ensures { result ≡ entry_answer (parse bytes.now) k }
{
    let record = Record::parse(bytes)?;
    if 510 < k {
        return Ok(None);
    }
    Ok(Some(record.table_entry(k)))
}

// A marker's code; none past the last.
pub fn code(bytes: &[u8], k: usize) -> Result<Option<u64>, Refusal>
    ensures { result ≡ code_answer (parse bytes.now) k }
{
    let record = Record::parse(bytes)?;
    if record.fields.code_count <= k {
        return Ok(None);
    }
    Ok(Some(record.code(k)))
}

// A cell; none past the last.
pub fn cell(bytes: &[u8], k: usize) -> Result<Option<ReadCell>, Refusal>
    ensures { result ≡ cell_answer (parse bytes.now) k }
{
    let record = Record::parse(bytes)?;
    if record.fields.cell_count <= k {
        return Ok(None);
    }
    let at = record.seek(k);
    Ok(Some(record.cell(at)))
}

// One cell's grid, as a slice of the record: empty for a refused record and for an unsampled or absent cell.
pub fn grid(bytes: &[u8], k: usize) -> &[u8]
    ensures { result.now ≡ grid_answer (parse bytes.now) k }
{
    let part = cells::grid_part(bytes, k);
    &bytes[part.first..part.end]
}
