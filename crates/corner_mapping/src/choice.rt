// For each id the chosen input corner: element id is its index + 1, or 0 if there is none.
ghost use Rattle.std.specs.Prelude.{◌≡◌, ◌+◌, ◌≤◌, ◌<◌, length};
ghost use Rattle.corner_mapping.specs.Corners.{id_of, greater, replaced};
ghost use Rattle.corner_mapping.specs.Entry.{input};
ghost use Rattle.corner_mapping.specs.Inner.{InputInRange, choice_of, ChoicesHeld};

use board::Board;
use grid_alignment::{GridAlignment, alignments};
use marker_sampling::questions;

// A board, the alignment of the corners, and the input corners: a score and three words of `grid` each. They passed question 18.
#[derive(Clone, Copy)]
pub struct CornerInput<'a> {
    pub board: Board,
    pub alignment: GridAlignment,
    pub scores: &'a [f32],
    pub grid: &'a [i32],
    ghost in_range: { InputInRange (input board alignment scores.now grid.now) },
}

impl<'a> CornerInput<'a> {
    // The id of the inner corner to which the alignment maps input corner k.
    fn id_of(self, k: usize) -> Option<u32>
        requires { k < length self.scores.now }
        ensures { result ≡ id_of self.entry.board self.entry.alignment self.entry.grid.now k }
    {
        if !questions::labelled(self.grid, k) {
            return None;
        }
        let u = questions::word(self.grid, 3 * k + 1) as i16;
        let v = questions::word(self.grid, 3 * k + 2) as i16;
        let corner = alignments::apply(self.alignment, u, v);
        self.board
            .charuco_corner_id_from_board_corner(corner.u, corner.v)
    }

    // Corner k instead of an earlier choice, if its score is greater.
    fn better(self, choice: u16, k: usize) -> u16
        requires { (k < length self.scores.now) × (choice ≤ k) }
        ensures { choice_of result ≡ replaced (greater self.entry.scores.now (choice_of choice) k) k (choice_of choice) }
    {
        let this = k as u16 + 1;
        if choice == 0 {
            return this;
        }
        if self.scores[usize::from(choice) - 1] < self.scores[k] {
            return this;
        }
        choice
    }

    // The choices among the first k corners become those among the first k + 1.
    fn choose_next(self, k: usize, choices: &mut [u16; 1024])
        requires { (k < length self.scores.now) × ChoicesHeld (input self.board self.alignment self.scores.now self.grid.now) k choices.old }
        ensures { ChoicesHeld (input self.entry.board self.entry.alignment self.entry.scores.now self.entry.grid.now) (k + 1) choices.new }
    {
        if let Some(id) = self.id_of(k) {
            let at = id as usize;
            choices[at] = self.better(choices[at], k);
        }
    }

    // Numbers with 0 for none, not Options: an array of Options takes twice the memory.
    pub fn choose(self) -> [u16; 1024]
        ensures { ChoicesHeld (input self.entry.board self.entry.alignment self.entry.scores.now self.entry.grid.now) (length self.entry.scores.now) result }
    {
        let mut choices: [u16; 1024] = [0; 1024];
        for k in 0..self.scores.len() {
            self.choose_next(k, &mut choices);
        }
        choices
    }
}
