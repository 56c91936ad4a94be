// Kinds 5 to E, 19, 1A, 10D and 10E: calls of the entry points through their C functions, and the text of `place` for a record.
use stored_rows::answers::{Answer, BEFORE};
use stored_rows::{answers, lists, numbers};

// The number that the reader of a kind returns.
fn number_of(bytes: &[u8], kind: u64, k: usize, words: &mut [u32]) -> u32 {
    match kind {
        5 => charuco::charuco_read_header(bytes, words),
        6 => charuco::charuco_table_entry(bytes, k, words),
        7 => charuco::charuco_code(bytes, k, words),
        8 => charuco::charuco_cell(bytes, k, words),
        _ => charuco::charuco_grid(bytes, k, words),
    }
}

// The digest of so many bytes from an offset on; one past the end counts as 0.
fn of_part(bytes: &[u8], first: u32, n: u32) -> u32 {
    let start = first as usize;
    let mut h: u32 = 0;
    for k in start..start + n as usize {
        h = answers::after(h, u32::from(numbers::element(bytes, k)));
    }
    h
}

// Kinds 5 to 9. A grid is returned as its byte range, so the digest is that of the bytes there.
pub fn read(bytes: &[u8], kind: u64, k: usize) -> Answer {
    let mut words = BEFORE;
    let number = number_of(bytes, kind, k, &mut words);
    if kind == 9 && number == 0 {
        let digest = of_part(bytes, words[0], words[1]);
        return Answer {
            number,
            words,
            digest,
        };
    }
    Answer {
        number,
        words,
        digest: 0,
    }
}

// Kind B, of the first `read` bytes.
pub fn text(bytes: &[u8; 65536], read: usize) -> Answer {
    let mut words = BEFORE;
    let mut markers: [u32; 4608] = [0; 4608];
    let mut text: [u8; 32768] = [0; 32768];
    let length = place_text::place(bytes, read, &mut markers, &mut text);
    words[0] = numbers::low(length as u64);
    Answer {
        number: 0,
        words,
        digest: answers::digest(&text[..length]),
    }
}

// Kind C: corners, words of their grid points, length of the output array. The words after those of the corners are inliers.
fn whole_cells(words: &[u64], cells: &mut [i32], row: [u64; 32]) -> Answer {
    let mut told = BEFORE;
    lists::fill(cells);
    let scores = lists::scores(words);
    let grid = lists::grid(words);
    let corner_count = row[1].min(1100) as usize;
    let inliers = lists::inliers(words, corner_count);
    let inlier_count = words.len().saturating_sub(4 * corner_count).min(1100);
    let grid_words = row[2].min(3300) as usize;
    let number = charuco::charuco_build_marker_cells(
        &scores[..corner_count],
        &grid[..grid_words],
        &inliers[..inlier_count],
        cells,
        &mut told,
    );
    Answer {
        number,
        words: told,
        digest: answers::digest(cells),
    }
}

pub fn marker_cells(words: &[u64], row: [u64; 32]) -> Answer {
    let mut cells: [i32; 3000] = [0; 3000];
    let places = row[3].min(3000) as usize;
    whole_cells(words, &mut cells[..places], row)
}

// Kinds D and 10D: the board, the alignment of the corners, words of the grid points.
fn corners(words: &[u64], row: [u64; 32], list: &mut [u32], told: &mut [u32]) -> u32 {
    let bits = numbers::lows(row);
    let code_count = row[7].min(1025) as usize;
    let codes = lists::codes(row[3], code_count, row[8], row[9]);
    let scores = lists::scores(words);
    let grid = lists::grid(words);
    let corner_count = (words.len() / 4).min(1100);
    let grid_words = row[13].min(3300) as usize;
    charuco::charuco_map_charuco_corners(
        bits[1],
        bits[2],
        bits[3],
        bits[4],
        numbers::legacy(row[0]),
        floats::from_bits(bits[5]),
        floats::from_bits(bits[6]),
        &codes[..code_count],
        &scores[..corner_count],
        &grid[..grid_words],
        bits[10],
        bits[11].cast_signed(),
        bits[12].cast_signed(),
        list,
        told,
    )
}

// Kinds E and 10E: the board, the mode.
fn links(words: &[u64], row: [u64; 32], list: &mut [u32], told: &mut [u32]) -> u32 {
    let bits = numbers::lows(row);
    let code_count = row[7].min(1025) as usize;
    let codes = lists::codes(row[3], code_count, row[8], row[9]);
    let links = lists::short_words(words, 0);
    let link_words = words.len().min(8200);
    charuco::charuco_validate_marker_corner_links(
        bits[1],
        bits[2],
        bits[3],
        bits[4],
        numbers::legacy(row[0]),
        floats::from_bits(bits[5]),
        floats::from_bits(bits[6]),
        &codes[..code_count],
        &links[..link_words],
        bits[10],
        list,
        told,
    )
}

fn number_with_list(
    bytes: &[u8],
    words: &[u64],
    row: [u64; 32],
    list: &mut [u32],
    told: &mut [u32],
) -> u32 {
    match numbers::kind(row[0]) {
        0xA => charuco::charuco_match_board(bytes, list, told),
        0xD => corners(words, row, list, told),
        _ => links(words, row, list, told),
    }
}

// Kinds A, D and E, 10D and 10E, which have an output array of words.
pub fn with_list(bytes: &[u8], words: &[u64], row: [u64; 32], list: &mut [u32]) -> Answer {
    let mut told = BEFORE;
    lists::fill(list);
    let number = number_with_list(bytes, words, row, list, &mut told);
    Answer {
        number,
        words: told,
        digest: answers::digest(list),
    }
}

// Kind 19, which also has a score array: its elements are appended to the digest of the output array.
pub fn with_scores(bytes: &[u8], scores: &mut [f32], list: &mut [u32]) -> Answer {
    let mut told = BEFORE;
    lists::fill(list);
    lists::fill(scores);
    let number = charuco::charuco_match_board_with_scores(bytes, scores, list, &mut told);
    Answer {
        number,
        words: told,
        digest: answers::after_all(answers::digest(list), scores),
    }
}

// Kind 1A, whose output array has bytes.
pub fn restated(bytes: &[u8], sheet: &mut [u8]) -> Answer {
    let mut told = BEFORE;
    lists::fill(sheet);
    let number = charuco::charuco_restate(bytes, sheet, &mut told);
    Answer {
        number,
        words: told,
        digest: answers::digest(sheet),
    }
}
