// The questions after the board's, and the new record, written from its first byte to its last.
ghost use Rattle.std.specs.Prelude.{◌≡◌, ◌+◌, ◌*◌, ◌≤◌, length};
ghost use Rattle.lent_list.specs.Front.{in_front, at_exit, Put};
ghost use Rattle.shot_record.specs.Shots.{list, shot};
ghost use Rattle.shot_record.specs.Writing.{little_endian, each};
ghost use Rattle.legacy_record.specs.Restated.{new_code, is_even, layout_differs, reversed_on};
ghost use Rattle.legacy_record.specs.Restating.{without_flag, restated_bytes, sides_answer, asked_from25, converted_by};
ghost use Rattle.legacy_record.specs.Inner.{Restatable};

use board::Board;
use refusal::Refusal;
use shot_record::Record;

fn is_even(n: u8) -> bool
    ensures { result ≡ is_even n }
{
    n % 2 == 0
}

// Does the flag of this board change its layout?
fn layout_differs(board: Board) -> bool
    ensures { result ≡ layout_differs board }
{
    board.legacy_pattern && is_even(board.rows)
}

// Question 25.
fn sides(board: Board) -> bool
    ensures { result ≡ sides_answer board }
{
    !(layout_differs(board) && is_even(board.cols))
}

// The number of codes that are listed in reverse.
fn reversed_on(board: Board) -> usize
    ensures { result ≡ reversed_on board }
{
    if layout_differs(board) {
        return board.marker_count() as usize;
    }
    0
}

// The map byte without bit 4.
fn without_flag(map: u8) -> u8
    ensures { result ≡ without_flag map }
{
    map & !0x10
}

fn put_code(sheet: &mut [u8], at: usize, code: u64) -> usize
    requires { at + 8 ≤ length sheet.old }
    ensures { Put sheet.old sheet.new at result (little_endian 8 code) }
{
    lent_list::put(sheet, at, &code.to_le_bytes())
}

// Writes the first n codes in reverse, each turned twice, and returns the index after them.
fn put_codes(sheet: &mut [u8], at: usize, codes: &[u64; 512], bits: u8, n: usize) -> usize
    requires { (n ≤ 512) × (bits ≤ 8) × (at + 8 * n ≤ length sheet.old) }
    ensures { Put sheet.old sheet.new at result (each (little_endian 8) (list (new_code bits n codes.now) n)) }
{
    let mut next = at;
    for k in 0..n {
        let code = matcher::rotate_code_u64(codes[n - 1 - k], bits, 2);
        next = put_code(sheet, next, code);
    }
    next
}

// Writes the new record: the map byte, the bytes up to the codes, the codes that change, and the rest.
fn put_restated(board: Board, input: &Record<'_>, codes: &[u64; 512], sheet: &mut [u8])
    requires { Restatable input.now.bytes.now board codes.now
        × (length input.now.bytes.now ≤ length sheet.old) }
    ensures { sheet.new ≡ in_front (restated_bytes input.now.bytes.now (shot input.now.bytes.now)) sheet.old }
{
    let bytes = input.bytes;
    let n = reversed_on(board);
    let codes_at = input.fields.rows_at + 14;
    let mut next = lent_list::put(sheet, 0, &[without_flag(input.fields.map)]);
    next = lent_list::put(sheet, next, &bytes[next..codes_at]);
    next = put_codes(sheet, next, codes, board.bits, n);
    lent_list::put(sheet, next, &bytes[next..]);
}

// Questions 25 and 14, then the new record.
pub fn restate_on(
    board: Board,
    input: &Record<'_>,
    codes: &[u64; 512],
    sheet: &mut [u8],
) -> Result<usize, Refusal>
    requires { Restatable input.now.bytes.now board codes.now }
    ensures answer { result
        ≡ converted_by (asked_from25 board (length input.now.bytes.now) (length sheet.old)) (length input.now.bytes.now) }
    ensures list { sheet.new ≡ at_exit (asked_from25 board (length input.now.bytes.now) (length sheet.old))
        (restated_bytes input.now.bytes.now (shot input.now.bytes.now)) sheet.old }
{
    if !sides(board) {
        return Err(Refusal::EvenLegacyBoard);
    }
    let size = input.bytes.len();
    if sheet.len() < size {
        return Err(Refusal::ListTooShort);
    }
    put_restated(board, input, codes, sheet);
    Ok(size)
}
