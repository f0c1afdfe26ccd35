// The cells in which what the rests weigh stands: words of the slack table that no slack has.
ghost use Rattle.std.specs.Prelude.{◌≡◌, ◌+◌, ◌≤◌, ◌<◌, length, get_or, set};
ghost use Rattle.slack.specs.Greatest.{larger};
ghost use Rattle.offers.specs.Words.{Area};
ghost use Rattle.weights.specs.Cells.{cell_at, weight_by};

use records::Board;
use sketch::{SIDE, SQUARE, word_at};

// The word of the rest after a module of s cores and task t whose first module has q.
pub(crate) fn cell_of(cores: u8, s: u8, t: u8, q: u8) -> usize
    requires { (1 ≤ s) × (1 ≤ q) × (s + q ≤ cores) }
    ensures { result ≡ cell_at cores s t q }
{
    let row = (cores as usize) + 1 - (q as usize);
    (t as usize) * SQUARE + row * SIDE + ((s as usize) - 1)
}

// Marks the cell i, where it is not marked yet, and answers with its word.
pub(crate) fn mark(work: &mut [u32], i: usize) -> u32
    requires { i < length work.old }
    ensures { (result ≡ larger (get_or work.old i 0) 1) × (work.new ≡ set work.old i result) }
{
    let v = work[i].max(1);
    work[i] = v;
    v
}

// What the rest weighs that comes after a module of p cores up to task l, which is marked: nothing behind the last task.
pub(crate) fn weight_after(work: &mut [u32], board: Board, p: u8, l: u8, q: u8) -> u32
    requires { Area board work.old × (1 ≤ p) × (1 ≤ l) × (l ≤ board.tasks) × (l < board.tasks → (1 ≤ q) × (p + q ≤ board.cores)) }
    ensures { (l ≡ board.tasks → (result ≡ 0) × (work.new ≡ work.old))
        × (l < board.tasks → (result ≡ larger (get_or work.old (cell_at board.cores p l q) 0) 1) × (work.new ≡ set work.old (cell_at board.cores p l q) result)) }
{
    if l == board.tasks {
        return 0;
    }
    mark(work, cell_of(board.cores, p, l, q))
}

// What the rest weighs that comes after a module of p cores up to task l, as its cell says: nothing behind the last task, and where p or q
// is 0 or they are more than the board's cores.
pub fn weight_of(work: &[u32], board: Board, p: u8, l: u8, q: u8) -> u32
    ensures { result ≡ weight_by board work.now p l q }
{
    if l == board.tasks || p < 1 || q < 1 || (board.cores as u32) < (p as u32) + (q as u32) {
        return 0;
    }
    word_at(work, cell_of(board.cores, p, l, q))
}
