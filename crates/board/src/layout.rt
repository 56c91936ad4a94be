// The layout of a board as formulas on its parity, rows and cols. Square (i, j) has row-major index (rank) j cols + i; of each two ranks
// 2m and 2m + 1 one holds marker m, for either parity.
ghost use Rattle.std.specs.Prelude.{◌≡◌, ◌+◌, ◌*◌, ◌/◌, ◌^◌, ◌<◌, ◌≤◌, pos, Some};
ghost use Rattle.std.specs.Float.{binary32};
ghost use Rattle.std.specs.Float.Ieee.{mul, of_int};
ghost use Rattle.board.specs.Numbering.{clipped, number_at};
ghost use Rattle.board.specs.Layout.{parity_of, holds_marker, marker_total, marker_on, marker_square, around as around_of, surrounding_corners};
ghost use Rattle.board.specs.Layout.{inner, corner_count, corner_at, corner_place, object_point};

use super::{Board, ObjectPoint, Position, Surrounding};

// A coordinate off the board, on either side, becomes `limit`.
fn clip(x: i32, limit: u8) -> u32
    ensures { result ≡ clipped limit x }
{
    let last = u32::from(limit);
    u32::try_from(x).unwrap_or(last).min(last)
}

// `i` squares of a size. Integers up to 2²⁴ are exact in f32.
fn squares(i: u32, size: f32) -> f32
    requires { i ≤ 2 ^ 24 }
    ensures { result ≡ mul binary32 (of_int binary32 (pos i)) size }
{
    i as f32 * size
}

impl Board {
    // The parity of i + j of the squares that have markers.
    fn parity(self) -> u8
        ensures { result ≡ parity_of self }
    {
        if self.legacy_pattern {
            return self.rows % 2;
        }
        1
    }

    // Half of the squares, rounded down if square (0, 0) has no marker, else up.
    pub fn marker_count(self) -> u32
        ensures { result ≡ marker_total self }
    {
        (self.rows as u32 * self.cols as u32 + (1 - self.parity() as u32)) / 2
    }

    // Does square (i, j), if it is on the board, have a marker?
    pub fn holds_marker(self, i: usize, j: usize) -> bool
        ensures { result ≡ holds_marker (parity_of self) i j }
    {
        (i % 2 + j % 2) % 2 == self.parity() as usize
    }

    // The id of the marker on a square that has one.
    pub fn id_on(self, i: usize, j: usize) -> usize
        requires { (i < self.cols) × (j < self.rows) }
        ensures { result ≡ (j * self.cols + i) / 2 }
    {
        (j * self.cols as usize + i) / 2
    }

    fn marker_id(self, i: u32, j: u32) -> Option<u32>
        ensures { result ≡ number_at (holds_marker (parity_of self)) self.cols self.rows i j }
    {
        let x = i as usize;
        let y = j as usize;
        if self.cols as usize <= x || self.rows as usize <= y || !self.holds_marker(x, y) {
            return None;
        }
        Some(self.id_on(x, y) as u32)
    }

    // The marker on square (i, j).
    pub fn marker_id_at(self, i: i32, j: i32) -> Option<u32>
        ensures { result ≡ marker_on self i j }
    {
        self.marker_id(clip(i, self.cols), clip(j, self.rows))
    }

    // The square of a marker.
    pub fn marker_position(self, id: u32) -> Option<Position>
        ensures { result ≡ marker_square self id }
    {
        if self.marker_count() <= id {
            return None;
        }
        let width = self.cols as u32;
        let k = 2 * id;
        let i = k % width;
        let j = k / width;
        if self.holds_marker(i as usize, j as usize) {
            return Some(Position { i, j });
        }
        Some(Position {
            i: (k + 1) % width,
            j: (k + 1) / width,
        })
    }

    pub fn corner_count(self) -> u32
        ensures { result ≡ corner_count self.rows self.cols }
    {
        self.rows.saturating_sub(1) as u32 * self.cols.saturating_sub(1) as u32
    }

    fn corner_id(self, i: u32, j: u32) -> Option<u32>
        ensures { result ≡ number_at inner self.cols self.rows i j }
    {
        let width = self.cols as u32;
        if width <= i || self.rows as u32 <= j || i < 1 || j < 1 {
            return None;
        }
        Some((j - 1) * (width - 1) + (i - 1))
    }

    // The inner corner at board corner (i, j).
    pub fn charuco_corner_id_from_board_corner(self, i: i32, j: i32) -> Option<u32>
        ensures { result ≡ corner_at self.rows self.cols i j }
    {
        self.corner_id(clip(i, self.cols), clip(j, self.rows))
    }

    // The board corner of an inner corner's id (`grid_from_charuco_id` of upstream's corner_mapping.rs).
    pub fn board_corner(self, id: u32) -> Option<Position>
        ensures { result ≡ corner_place self.rows self.cols id }
    {
        if self.corner_count() <= id {
            return None;
        }
        let stride = self.cols as u32 - 1;
        Some(Position {
            i: id % stride + 1,
            j: id / stride + 1,
        })
    }

    // The point of an inner corner in the board's plane.
    pub fn charuco_object_xy(self, id: u32) -> Option<ObjectPoint>
        ensures { result ≡ object_point self.rows self.cols self.cell_size id }
    {
        let place = self.board_corner(id)?;
        Some(ObjectPoint {
            x: squares(place.i, self.cell_size),
            y: squares(place.j, self.cell_size),
        })
    }

    // The four corners of a square, if all are inner.
    fn around(self, place: Position) -> Option<Surrounding>
        requires { (place.i < self.cols) × (place.j < self.rows) }
        ensures { result ≡ around_of self.rows self.cols (Some place) }
    {
        let i = place.i;
        let j = place.j;
        let width = self.cols as u32;
        if i < 1 || j < 1 || width <= i + 1 || self.rows as u32 <= j + 1 {
            return None;
        }
        let stride = width - 1;
        let top_left = (j - 1) * stride + (i - 1);
        Some(Surrounding {
            top_left,
            top_right: top_left + 1,
            bottom_right: top_left + stride + 1,
            bottom_left: top_left + stride,
        })
    }

    // The four inner corners around a marker: none for an unknown marker or one on the rim.
    pub fn marker_surrounding_charuco_corners(self, id: u32) -> Option<Surrounding>
        ensures { result ≡ surrounding_corners self id }
    {
        let place = self.marker_position(id)?;
        self.around(place)
    }
}
