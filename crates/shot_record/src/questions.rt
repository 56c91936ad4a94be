// The board's checks (documents 01 and 02) of a record that passes question 21, for Match and every other entry point that makes them.
ghost use Rattle.std.specs.Prelude.{◌≡◌, ◌≤◌, ◌<◌, get_or};
ghost use Rattle.board.specs.Questions.{codes_answer, new_board};
ghost use Rattle.shot_record.specs.Shots.{first_codes, shot};
ghost use Rattle.shot_record.specs.Answers.{spec_of};

use super::Record;
use board::{Board, questions};
use refusal::Refusal;

impl Record<'_> {
    // Code k: one of the first 512, which were read before, or a later one from the record.
    fn code_by(&self, first: &[u64; 512], k: usize) -> u64
        requires { (k < self.now.fields.code_count) × (first.now ≡ first_codes (shot self.now.bytes.now)) }
        ensures { result ≡ get_or (shot self.now.bytes.now).codes k 0 }
    {
        if k < 512 {
            return first[k];
        }
        self.code(k)
    }

    // Question 8: Is every code below 2^(bits²)?
    fn codes_below(&self, first: &[u64; 512], bits: u8) -> bool
        requires { (1 ≤ bits) × (bits ≤ 8) × (first.now ≡ first_codes (shot self.now.bytes.now)) }
        ensures { result ≡ codes_answer bits (shot self.now.bytes.now).codes }
    {
        for k in 0..self.fields.code_count {
            if !questions::code(bits, self.code_by(first, k)) {
                return false;
            }
        }
        true
    }

    // Questions 1 to 8 and 22: the board of the record. Its markers use some of the first 512 codes.
    pub fn board(&self, first: &[u64; 512]) -> Result<Board, Refusal>
        requires { first.now ≡ first_codes (shot self.now.bytes.now) }
        ensures { result ≡ new_board (spec_of (shot self.now.bytes.now)) (shot self.now.bytes.now).codes }
    {
        let board = Board::sized(self.spec(), self.fields.code_count)?;
        let in_range = self.codes_below(first, board.bits);
        questions::judged(board, in_range, first)
    }
}
