// Kind F: the text of a result that no record need have. The words are the 19 of a match, then those of its markers.
use board_match::Match;
use grid_alignment::GridAlignment;
use ranking::{Evidence, Hypothesis};
use stored_rows::answers::{Answer, BEFORE};
use stored_rows::{answers, lists, numbers};

fn alignment(turn: u64, tx: u64, ty: u64) -> GridAlignment {
    GridAlignment {
        turn: numbers::byte(turn),
        tx: numbers::low(tx).cast_signed(),
        ty: numbers::low(ty).cast_signed(),
    }
}

fn evidence(is_number: u64, bits: u64) -> Evidence {
    if is_number == 0 {
        return Evidence::Absent;
    }
    Evidence::Number(floats::from_bits(numbers::low(bits)))
}

// The five words of a placement from index `at` on, and its number of contributing cells at `count_at`.
fn hypothesis(words: &[u64], at: u8, count_at: u8) -> Hypothesis {
    let first = at as usize;
    Hypothesis {
        alignment: alignment(
            numbers::element(words, first),
            numbers::element(words, first + 1),
            numbers::element(words, first + 2),
        ),
        evidence: evidence(
            numbers::element(words, first + 3),
            numbers::element(words, first + 4),
        ),
        contributing_cells: numbers::element(words, count_at as usize) as usize,
    }
}

fn runner_up(words: &[u64]) -> Option<Hypothesis> {
    if numbers::element(words, 5) == 0 {
        return None;
    }
    Some(hypothesis(words, 6, 18))
}

fn match_of(words: &[u64]) -> Match {
    Match {
        best: hypothesis(words, 0, 17),
        runner_up: runner_up(words),
        margin: floats::from_bits(numbers::low(numbers::element(words, 11))),
        placements: numbers::element(words, 12) as usize,
        corners: alignment(
            numbers::element(words, 13),
            numbers::element(words, 14),
            numbers::element(words, 15),
        ),
        markers: numbers::element(words, 16) as usize,
    }
}

fn put_text(words: &[u64], text: &mut [u8]) -> usize {
    let markers = lists::short_words(words, 19);
    place_text::format(Ok(match_of(words)), &markers, text)
}

fn text_in(words: &[u64], text: &mut [u8]) -> Answer {
    let mut told = BEFORE;
    let length = put_text(words, text);
    let end = length.min(text.len());
    told[0] = numbers::low(length as u64);
    Answer {
        number: 0,
        words: told,
        digest: answers::digest(&text[..end]),
    }
}

pub fn of_match(words: &[u64]) -> Answer {
    let mut text: [u8; 32768] = [0; 32768];
    text_in(words, &mut text)
}
