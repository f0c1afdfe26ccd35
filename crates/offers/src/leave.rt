// What modules of one number of cores that end with one task leave at a threshold, for every input.
ghost use Rattle.std.specs.Prelude.{◌≡◌, true, false};
ghost use Rattle.modules.specs.Model.{chain_of};
ghost use Rattle.offers.specs.Leaving.{Askable, LeftFrom};

use crate::ends::{blank, cheapest, first_sent, offer};
use crate::words::has_room;
use guess::TOP;
use records::Board;
use sketch::SIDE;

// Two rows, each of an entry for each number of cores.
pub const PLACES: usize = 66;

// Whether it can be asked: for two rows, for cores beside which a rest of `least` fits, for a task of the chain, at a threshold up to the greatest,
// on a board in range and of enough words.
fn askable(board: Board, words: usize, n: u64, l: u8, q: u8, least: usize, places: usize) -> bool
    ensures { (result ≡ true → Askable board words n l q least places) × (result ≡ false → Askable board words n l q least places → ⊥) }
{
    places == PLACES
        && (1..=board.cores).contains(&q)
        && least <= (board.cores - q) as usize
        && (1..=board.tasks).contains(&l)
        && n <= TOP
        && has_room(board, words)
}

// What one copy of q cores leaves at b, and any copies at 33 + b, for all numbers of cores b from q to the board's: `least` is the fewest cores
// of a rest after task l, `extra` what several copies take more, and `left` are zeros. The answer is a number of cores below which nothing
// is left, the fewest with which something can be sent; one more than the board's where none are, and where it cannot be asked, which leaves `left`
// as it is.
pub fn left_from(
    costs: &[u8],
    board: Board,
    work: &[u32],
    n: u64,
    extra: u32,
    l: u8,
    q: u8,
    least: usize,
    left: &mut [u32],
) -> usize
    ensures { LeftFrom (chain_of costs.now board) board work.now n extra l q least left.old left.new result }
{
    let cores = board.cores as usize;
    if !askable(board, work.len(), n, l, q, least, left.len()) {
        return cores + 1;
    }
    let unsent = blank(board.tasks, l);
    let mut row = [unsent; SIDE];
    cheapest(costs, board, work, l, q, least, &mut row);
    let low = first_sent(&row, least, cores - (q as usize));
    offer(n, extra, &row, q as usize, low, cores, left);
    (q as usize) + low
}
