// The sums of all placements of one turn, cell by cell, so that the likelihoods of a cell's bits are looked up once for all of them. With d moves
// down, the placement whose frame is moved by (a, b) has its sum at index a d + b. A cell changes only the sums of moves that put it on a marker;
// these are processed eight at a time.
ghost use Rattle.std.specs.Prelude.{◌≡◌, List, ℕ, ◌+◌, ◌*◌, ◌<◌, ◌≤◌, get_or, Float};
ghost use Rattle.std.specs.Float.{nan};
ghost use Rattle.score_matrix.specs.Likelihoods.{lane_code};
ghost use Rattle.hypothesis.specs.Sums.{with_score, Added, Stays, order, OnMarker, FirstMove, next_move, AddedBefore};
ghost use Rattle.hypothesis.specs.Sums.{code_score, Small, OfMarker, OfEight, with_code};
ghost use Rattle.hypothesis.specs.Filling.{Cleared};

use board::{Board, squares};
use score_matrix::turned;

// A cell that may contribute: its square in the frame, its weight, and what is the same for all cells of a shot.
#[derive(Clone, Copy)]
pub struct Counted {
    pub i: usize,
    pub j: usize,
    pub weight: f32,
    pub null: f32,
    pub board: Board,
}

// A move of the frame by (a, b).
#[derive(Clone, Copy)]
pub struct Move {
    pub a: usize,
    pub b: usize,
}

// Sets the first `count` sums to 0.
pub fn clear(sums: &mut [f32; 1024], count: usize)
    requires { count ≤ 1024 }
    ensures { Cleared count sums.new }
{
    for k in 0..count {
        sums[k] = 0.0;
    }
}

// The code of the marker on the cell's square after a move.
fn code_after(codes: &[u64; 512], cell: Counted, at: Move) -> u64
    requires { (cell.board.cols ≤ 32) × (cell.board.rows ≤ 32) × (cell.i + at.a < cell.board.cols) × (cell.j + at.b < cell.board.rows) }
    ensures { OfMarker cell (λ k. get_or codes.now k 0) at result }
{
    let id = squares::marker_on(cell.board, cell.i + at.a, cell.j + at.b);
    codes[id]
}

// Adds the cell to the sum of a move, from the score of the expected marker.
pub fn add_score(sums: &mut [f32; 1024], cell: Counted, at: Move, down: usize, score: f32)
    requires { at.a * down + at.b < 1024 }
    ensures { sums.new ≡ with_score cell (at.a * down + at.b) score sums.old }
{
    let place = at.a * down + at.b;
    sums[place] = sums[place] + cell.weight * (score - cell.null);
}

// The first move that puts the cell on a marker. With a return for each first row instead of `b`, a match was measured 3 % slower.
pub fn first_move(cell: Counted, down: usize) -> Move
    ensures { FirstMove cell down result }
{
    let board = cell.board;
    let b = if board.holds_marker(cell.i, cell.j) {
        0
    } else {
        1
    };
    if b < down {
        return Move { a: 0, b };
    }
    Move { a: 1, b: 0 }
}

// The next such move: markers are on every second row, and on the other rows of the next column.
pub fn next_move(down: usize, at: Move) -> Move
    requires { (at.a < 32) × (at.b < 32) }
    ensures { result ≡ next_move down at }
{
    if at.b + 2 < down {
        return Move {
            a: at.a,
            b: at.b + 2,
        };
    }
    let a = at.a + 1;
    let b = (at.b + 1) % 2;
    if b < down {
        return Move { a, b };
    }
    Move { a: a + 1, b: 0 }
}

// Stores a code in lane x: its low half there, its high half eight lanes later.
fn put_code(lanes: &mut [u32; 16], x: usize, code: u64)
    requires { x < 8 }
    ensures { lanes.new ≡ with_code x code lanes.old }
{
    lanes[x] = (code % 0x1_0000_0000) as u32;
    lanes[x + 8] = (code / 0x1_0000_0000) as u32;
}

// The codes of the markers at eight moves from `first` on, as `turned::sum_eight` takes them. Where the frame leaves the board earlier, the remaining
// lanes have code 0.
fn gather(cell: Counted, first: Move, across: usize, down: usize, codes: &[u64; 512]) -> [u32; 16]
    requires { Stays cell across down × OnMarker cell down first }
    ensures { OfEight cell (λ k. get_or codes.now k 0) across down first (lane_code result) }
{
    let mut lanes: [u32; 16] = [0; 16];
    let mut at = first;
    for x in 0..8 {
        if across <= at.a {
            break;
        }
        put_code(&mut lanes, x, code_after(codes, cell, at));
        at = next_move(down, at);
    }
    lanes
}

// Adds the cell to the sums of the same moves, from the scores of their markers. Returns the move after them.
fn add_eight(
    sums: &mut [f32; 1024],
    cell: Counted,
    first: Move,
    across: usize,
    down: usize,
    scores: &[f32; 8],
) -> Move
    requires { Stays cell across down × (across * down ≤ 1024) × OnMarker cell down first × (first.a < across) }
    ensures on { OnMarker cell down result × (order first < order result) }
    ensures sums { (score : ℕ → Float) (entry : List Float)
        → OfEight cell score across down first (λ x. get_or scores.now x nan)
        → AddedBefore cell score across down (order first) entry sums.old
        → AddedBefore cell score across down (order result) entry sums.new }
{
    let mut at = first;
    for x in 0..8 {
        if across <= at.a {
            break;
        }
        add_score(sums, cell, at, down, scores[x]);
        at = next_move(down, at);
    }
    at
}

// Adds a cell to the sums of all placements of a turn.
pub fn add_cell(
    sums: &mut [f32; 1024],
    cell: Counted,
    across: usize,
    down: usize,
    likelihoods: &[f32; 128],
    sources: &[u8; 64],
    codes: &[u64; 512],
)
    requires { Stays cell across down × Small (cell.board.bits * cell.board.bits) sources.now × (across * down ≤ 1024) }
    ensures { Added cell (code_score cell.board.bits likelihoods.now sources.now codes.now) across down
        sums.old sums.new }
{
    let mut at = first_move(cell, down);
    while at.a < across {
        let lanes = gather(cell, at, across, down, codes);
        let scores = turned::sum_eight(likelihoods, sources, cell.board.bits, &lanes);
        at = add_eight(sums, cell, at, across, down, &scores);
    }
}
