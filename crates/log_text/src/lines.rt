// The lines of an entry.
ghost use Rattle.std.specs.Prelude.{◌≤◌, length};
ghost use Rattle.place_text.specs.Text.{answer_line};
ghost use Rattle.place_text.specs.Writing.{Wrote};
ghost use Rattle.log_text.specs.Lines.{step_line, order_line, entry_line, shot_answer, entry_lines, cut_line};

use board_match::Match;
use place_text::writer::Page;
use refusal::Refusal;

// Number `n` after the highest number `h`.
fn put_step(page: &mut Page<'_>, h: u32, n: u32)
    ensures line { Wrote (step_line h n) page.old page.new }
    ensures room { length (step_line h n) ≤ 26 }
{
    if n <= h {
        page.put_all(b"backward\n");
        return;
    }
    let first = h + 1;
    if first < n {
        page.put_all(b"gap");
        page.and_decimal(first as u64);
        page.and_decimal((n - 1) as u64);
        page.put(b'\n');
        return;
    }
    page.put_all(b"");
}

fn put_order(page: &mut Page<'_>, highest: Option<u32>, n: u32)
    ensures line { Wrote (order_line highest n) page.old page.new }
    ensures room { length (order_line highest n) ≤ 26 }
{
    match highest {
        None => page.put_all(b""),
        Some(h) => put_step(page, h, n),
    }
}

fn put_answer(page: &mut Page<'_>, answer: Result<Match, Refusal>)
    ensures { Wrote (answer_line answer) page.old page.new }
{
    match answer {
        Ok(found) => page.put_hypothesis(b"best", found.best),
        Err(refusal) => page.put_refusal(refusal),
    }
}

// Match writes to `markers`.
fn put_entry(page: &mut Page<'_>, n: u32, shot: &[u8], markers: &mut [u32; 4608])
    ensures line { Wrote (entry_line n (shot_answer shot.now)) page.old page.new }
    ensures room { length (entry_line n (shot_answer shot.now)) ≤ 50 }
{
    let answer = board_match::match_board(shot, &mut markers[..]);
    page.put_all(b"entry");
    page.and_decimal(n as u64);
    page.put(b' ');
    put_answer(page, answer);
}

pub fn put_lines(
    page: &mut Page<'_>,
    highest: Option<u32>,
    n: u32,
    shot: &[u8],
    markers: &mut [u32; 4608],
)
    ensures lines { Wrote (entry_lines highest n shot.now) page.old page.new }
    ensures room { length (entry_lines highest n shot.now) ≤ 76 }
{
    put_order(page, highest, n);
    put_entry(page, n, shot, markers);
}

// The line of an entry that the end of the log cuts off, of which `count` bytes are there.
pub fn put_cut(page: &mut Page<'_>, count: usize)
    ensures { Wrote (cut_line count) page.old page.new }
{
    page.put_all(b"refused");
    page.and_decimal(26);
    page.and_decimal(count as u64);
    page.put(b'\n');
}
