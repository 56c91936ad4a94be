// Kinds 11 and 111: the whole layout of a board, as the number of markers and two digests.
use super::answers::BEFORE;
use super::{answers, numbers};

// The size of a board and its legacy flag.
#[derive(Clone, Copy)]
struct Layout {
    rows: u8,
    cols: u8,
    legacy: u32,
}

// Squares of a board and one beyond it on every side are counted from 0; their coordinates start at -1.
fn coordinate(k: u16) -> i32 {
    i32::from(k) - 1
}

impl Layout {
    // The marker on a square, and the board corner there.
    fn after_place(self, h: u32, i: i32, j: i32) -> u32 {
        let Layout { rows, cols, legacy } = self;
        let id = oracle_exports::oracle_marker_id_at(rows, cols, legacy, i, j);
        let corner = oracle_exports::oracle_corner_id(rows, cols, legacy, i, j);
        answers::after_both(answers::after_both(h, id), corner)
    }

    fn place_row(self, j: u16, before: u32) -> u32 {
        let mut h = before;
        for i in 0..u16::from(self.cols) + 3 {
            h = self.after_place(h, coordinate(i), coordinate(j));
        }
        h
    }

    fn places(self) -> u32 {
        let mut h: u32 = 0;
        for j in 0..u16::from(self.rows) + 3 {
            h = self.place_row(j, h);
        }
        h
    }

    // The positions of the marker and the corner with an id.
    fn after_squares(self, h: u32, id: u32) -> u32 {
        let Layout { rows, cols, legacy } = self;
        let marker = oracle_exports::oracle_marker_position(rows, cols, legacy, id);
        let corner = oracle_exports::oracle_corner_position(rows, cols, legacy, id);
        answers::after_both(answers::after_both(h, marker), corner)
    }

    fn after_point(self, h: u32, cell_size: f32, id: u32) -> u32 {
        let Layout { rows, cols, legacy } = self;
        let x = oracle_exports::oracle_object_xy(rows, cols, legacy, cell_size, id, 0);
        let y = oracle_exports::oracle_object_xy(rows, cols, legacy, cell_size, id, 1);
        answers::after(answers::after(h, floats::to_bits(x)), floats::to_bits(y))
    }

    // The ids of the marker's four corners.
    fn after_corners(self, before: u32, id: u32) -> u32 {
        let Layout { rows, cols, legacy } = self;
        let mut h = before;
        for k in 0..4u8 {
            let corner = oracle_exports::oracle_surrounding_corner(rows, cols, legacy, id, k);
            h = answers::after_both(h, corner);
        }
        h
    }

    fn after_id(self, h: u32, cell_size: f32, id: u32) -> u32 {
        let squares = self.after_squares(h, id);
        self.after_corners(self.after_point(squares, cell_size, id), id)
    }

    // Each id up to 1,024, so that some are unknown.
    fn ids(self, cell_size: f32) -> u32 {
        let mut h: u32 = 0;
        for id in 0..1025u32 {
            h = self.after_id(h, cell_size, id);
        }
        h
    }
}

pub fn words_of(row: [u64; 32]) -> [u32; 19] {
    let layout = Layout {
        rows: numbers::byte(row[1]),
        cols: numbers::byte(row[2]),
        legacy: numbers::legacy(row[0]),
    };
    let Layout { rows, cols, legacy } = layout;
    let mut words = BEFORE;
    words[0] = numbers::low(oracle_exports::oracle_marker_count(rows, cols, legacy));
    words[1] = layout.places();
    words[2] = layout.ids(floats::from_bits(numbers::low(row[3])));
    words
}
