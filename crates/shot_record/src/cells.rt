// The cells of a record: which are sampled, an iteration over them, and question 21, which covers all of them.
ghost use Rattle.std.specs.Prelude.{◌≡◌, ℕ, true, false, IfOk, IfErr, ◌+◌, ◌-◌, ◌^◌, ◌<◌, ◌≤◌, length, take, drop};
ghost use Rattle.matcher.specs.Codes.{bit};
ghost use Rattle.shot_record.specs.Fields.{is_set, cell_count, cell_map, cell_length, point_size, point_of, sample_place, cursor_at, AtCell};
ghost use Rattle.shot_record.specs.Shots.{whole_record, parse, cell_of};
ghost use Rattle.shot_record.specs.Answers.{cell_with, grid_answer, part_answer};
ghost use Rattle.shot_record.specs.Index.{point_word};

use super::{ReadCell, ReadSample, Record, maps, numbers};
use refusal::Refusal;

// Position of an iteration over the cells: the cell, and the offset where its bytes start. After the last cell that is where the record must end.
#[derive(Clone, Copy)]
pub struct Cursor {
    pub cell: usize,
    pub start: usize,
}

// The length of a cell in bytes. Bit k of the cell map says whether cell k is sampled.
fn cell_length(is_sampled: bool, grid_size: usize) -> usize
    requires { grid_size ≤ 2 ^ 20 }
    ensures { (map k : ℕ) → is_sampled ≡ is_set map k → result ≡ cell_length point_size (bit map k) grid_size }
{
    if is_sampled {
        return 9 + grid_size;
    }
    4
}

impl<'a> Record<'a> {
    // Is cell k sampled?
    pub fn is_sampled(&self, k: usize) -> bool
        requires { k < cell_count self.now.bytes.now }
        ensures { result ≡ is_set (cell_map self.now.bytes.now) k }
    {
        maps::is_set(self.bytes, self.fields.cell_map_at, k)
    }

    pub fn first(&self) -> Cursor
        ensures { result ≡ cursor_at self.now.bytes.now 0 }
    {
        Cursor {
            cell: 0,
            start: self.fields.cells_at,
        }
    }

    pub fn next(&self, c: Cursor) -> Cursor
        requires { AtCell self.now.bytes.now c }
        ensures { result ≡ cursor_at self.now.bytes.now (c.cell + 1) }
    {
        Cursor {
            cell: c.cell + 1,
            start: c.start + cell_length(self.is_sampled(c.cell), self.fields.grid_size),
        }
    }

    // The cursor at cell k, or after the last cell.
    pub fn seek(&self, k: usize) -> Cursor
        requires { k ≤ self.now.fields.cell_count }
        ensures { result ≡ cursor_at self.now.bytes.now k }
    {
        let mut c = self.first();
        for _ in 0..k {
            c = self.next(c);
        }
        c
    }

    // The cell's grid point as one word: u in the low half, v in the high half.
    pub fn point(&self, c: Cursor) -> u32
        requires { AtCell self.now.bytes.now c }
        ensures { result ≡ point_word (point_of self.now.bytes.now c.cell) }
    {
        numbers::four_at(self.bytes, c.start)
    }

    // The offset of the cell's sample, if it has one.
    pub fn sample_place(&self, c: Cursor) -> usize
        requires { AtCell self.now.bytes.now c }
        ensures { result ≡ sample_place self.now.bytes.now c.cell }
    {
        c.start + 4
    }

    // Question 21. A record that ends before its cells is not iterated: its cell count may be far above its length.
    pub fn is_whole(&self) -> bool
        ensures { result ≡ whole_record self.now.bytes.now }
    {
        let f = self.fields;
        if 65535 < self.bytes.len() {
            return false;
        }
        if 63 < f.map {
            return false;
        }
        if !maps::is_clear(self.bytes, f.cell_map_at, f.cell_count) {
            return false;
        }
        if self.bytes.len() < f.cells_at {
            return false;
        }
        self.seek(f.cell_count).start == self.bytes.len()
    }

    // The record of these bytes, if they pass question 21.
    pub fn parse(bytes: &'a [u8]) -> Result<Record<'a>, Refusal>
        ensures whole { IfOk result (λ read. (read.bytes.now ≡ bytes.now) × (whole_record bytes.now ≡ true)) }
        ensures refused { IfErr result (λ refusal. (refusal ≡ Refusal.InvalidRecord) × (whole_record bytes.now ≡ false)) }
    {
        let record = Record::located(bytes);
        if !record.is_whole() {
            return Err(Refusal::InvalidRecord);
        }
        Ok(record)
    }

    pub fn cell(&self, c: Cursor) -> ReadCell
        requires { AtCell self.now.bytes.now c }
        ensures { result ≡ cell_with (cell_of self.now.bytes.now c.cell) }
    {
        let point = self.point(c);
        let u = numbers::coordinate(point % 0x1_0000);
        let v = numbers::coordinate(point / 0x1_0000);
        if !self.is_sampled(c.cell) {
            return ReadCell { u, v, sample: None };
        }
        let place = self.sample_place(c);
        let sample = ReadSample {
            fraction: numbers::float_at(self.bytes, place),
            threshold: numbers::byte_at(self.bytes, place + 4),
        };
        ReadCell {
            u,
            v,
            sample: Some(sample),
        }
    }
}

// A part of a record (document 02): the byte range `first..end`. Not std's Range, since the law `UnchangedRule` names this type.
#[derive(Clone, Copy)]
pub struct Part {
    pub first: usize,
    pub end: usize,
}

// The byte range of the grid of cell k.
pub fn grid_part(bytes: &[u8], k: usize) -> Part
    ensures lies { (result.first ≤ result.end) × (result.end ≤ length bytes.now) }
    ensures holds { take (result.end - result.first) (drop result.first bytes.now) ≡ grid_answer (parse bytes.now) k }
    ensures place { result ≡ part_answer bytes.now (parse bytes.now) k }
{
    let Ok(record) = Record::parse(bytes) else {
        return Part { first: 0, end: 0 };
    };
    if record.fields.cell_count <= k {
        return Part { first: 0, end: 0 };
    }
    if !record.is_sampled(k) {
        return Part { first: 0, end: 0 };
    }
    let first = record.sample_place(record.seek(k)) + 5;
    Part {
        first,
        end: first + record.fields.grid_size,
    }
}
