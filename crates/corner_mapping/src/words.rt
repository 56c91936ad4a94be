// Writes the results to the output array: six words each, by increasing id.
ghost use Rattle.std.specs.Prelude.{◌≡◌, ◌+◌, ◌*◌, ◌≤◌, length};
ghost use Rattle.lent_list.specs.Front.{up_to, Put};
ghost use Rattle.board.specs.Layout.{corner_count};
ghost use Rattle.corner_mapping.specs.Corners.{mapped_if, mapped_by, corner_words, words_of_corners};
ghost use Rattle.corner_mapping.specs.Inner.{choice_of, stored};

use board::Board;

// The words of an id and the index of its chosen corner.
fn corner_words(board: Board, id: u32, index: u32) -> [u32; 6]
    ensures { result ≡ corner_words board (record { id = id; index = index }) }
{
    let place = board.board_corner(id);
    let target = board.charuco_object_xy(id);
    match (place, target) {
        (Some(p), Some(q)) => [
            id,
            index,
            p.i,
            p.j,
            floats::to_bits(q.x),
            floats::to_bits(q.y),
        ],
        (Some(p), None) => [id, index, p.i, p.j, 0, 0],
        // No result has such an id: law `board_corners_named`.
        (None, _) => [id, index, 0, 0, 0, 0],
    }
}

// Appends the corner chosen for an id, if any.
fn put_corner(board: Board, id: u32, choice: u16, corners: &mut [u32], at: usize) -> usize
    requires { at + length (words_of_corners board (mapped_if id (choice_of choice))) ≤ length corners.old }
    ensures { Put corners.old corners.new at result (words_of_corners board (mapped_if id (choice_of choice))) }
{
    if choice == 0 {
        return at;
    }
    let words = corner_words(board, id, u32::from(choice) - 1);
    lent_list::put(corners, at, &words)
}

// Writes the results of all ids and returns the index after the last word.
pub fn put_all(board: Board, choices: &[u16; 1024], corners: &mut [u32]) -> usize
    requires { (corner_count board.rows board.cols ≤ 1024) × (6 * corner_count board.rows board.cols ≤ length corners.old) }
    ensures { Put corners.old corners.new 0 result
        (words_of_corners board (up_to (mapped_by (stored choices.now)) (corner_count board.rows board.cols))) }
{
    let mut end = 0;
    for id in 0..board.corner_count() {
        end = put_corner(board, id, choices[id as usize], corners, end);
    }
    end
}
