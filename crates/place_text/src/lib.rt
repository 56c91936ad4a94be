// Formats the result of Match for a shot record as the text that the program `place` prints (document 01).

#![tactic(auto)]

ghost use Rattle.std.specs.Prelude.{◌≡◌, ◌≤◌, min, length, take};
ghost use Rattle.board_match.specs.Match.{match_list};
ghost use Rattle.place_text.specs.Place.{place_text};
ghost use Rattle.place_text.specs.Text.{match_lines, text_of};
ghost use Rattle.lent_list.specs.Front.{in_front};
ghost use Rattle.place_text.specs.Writing.{Wrote};

mod lines;
mod markers;
mod words;
pub mod writer;

use board_match::Match;
use refusal::Refusal;
use writer::Page;

impl<'a> Page<'a> {
    fn put_match(&mut self, found: Match, markers: &[u32])
        ensures { Wrote (match_lines found markers.now) self.old self.new }
    {
        let best = found.best;
        let runner_up = found.runner_up;
        let corners = found.corners;
        self.put_all(b"placed\n");
        self.put_hypothesis(b"best", best);
        self.put_next(runner_up);
        self.put_float(b"margin", found.margin);
        self.put_number(b"placements", found.placements as u64);
        self.put_corners(corners);
        self.put_markers(markers, found.markers);
    }

    fn put_answer(&mut self, answer: Result<Match, Refusal>, markers: &[u32])
        ensures { Wrote (text_of answer markers.now) self.old self.new }
    {
        match answer {
            Ok(found) => self.put_match(found, markers),
            Err(refusal) => self.put_refusal(refusal),
        }
    }
}

// Writes the text of `answer`, with the markers' words that Match wrote to `markers`, to the start of the output array, truncated to its length.
// Returns the number of bytes written.
// Public for `replay`: no record leads to an absent runner-up, or to a best placement without a number, and the text of both is tested.
pub fn format(answer: Result<Match, Refusal>, markers: &[u32], text: &mut [u8]) -> usize
    ensures count { result ≡ min (length (text_of answer markers.now)) (length text.old) }
    ensures list { text.new ≡ in_front (text_of answer markers.now) text.old }
{
    let mut page = Page { text, at: 0 };
    page.put_answer(answer, markers);
    page.at
}

// The text of the result for a record, for arrays of any length. It is never longer than 32 KiB.
fn answer_text(bytes: &[u8], markers: &mut [u32], text: &mut [u8]) -> usize
    ensures count { result ≡ min (length (place_text bytes.now markers.old)) (length text.old) }
    ensures text { text.new ≡ in_front (place_text bytes.now markers.old) text.old }
    ensures list { markers.new ≡ match_list bytes.now markers.old }
    ensures room { length (place_text bytes.now markers.old) ≤ 32768 }
{
    let answer = board_match::match_board(bytes, markers);
    format(answer, markers, text)
}

// The record is the first `read` bytes. The text is never truncated: `markers` has 18 words for each of 256 cells, and `text` room for as many lines.
// Returns the length of the text.
pub fn place(
    bytes: &[u8; 65536],
    read: usize,
    markers: &mut [u32; 4608],
    text: &mut [u8; 32768],
) -> usize
    ensures length { result ≡ length (place_text (take read bytes.now) markers.old) }
    ensures text { text.new ≡ in_front (place_text (take read bytes.now) markers.old) text.old }
    ensures list { markers.new ≡ match_list (take read bytes.now) markers.old }
    ensures room { result ≤ length text.new }
{
    answer_text(
        &bytes[..read.min(bytes.len())],
        &mut markers[..],
        &mut text[..],
    )
}
