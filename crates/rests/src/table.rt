// Rests by the words of a slack table.
ghost use Rattle.std.specs.Prelude.{◌≡◌};
ghost use Rattle.rests.specs.Words.{served_by, NeededBy, FewestBy};

use records::{Board, MOST_CORES};
use sketch::{SIDE, SQUARE, has_slack, word_at};

// Whether nothing is to come after task l, or a rest of at most b cores whose first module has q can still receive in e ticks.
pub fn served_in(work: &[u32], board: Board, l: u8, q: u8, b: u8, e: u32) -> bool
    ensures { result ≡ served_by board work.now l q b e }
{
    if l == board.tasks {
        return q == 0;
    }
    let i = (l as usize) * SQUARE + (q as usize) * SIDE + (b as usize);
    1 <= q && q <= b && e < word_at(work, i)
}

// The fewest cores of a rest after task t whose first module has q and receives in e ticks; one more than the board's where there is none.
// On a board of more than 32 cores, where q is more than its cores, and where the words are too few, q itself.
// Numbers for "none", and no Option: `need_on` of slack/specs/Problem.antt counts so, and more cores than there are is what its callers compare with.
pub fn cores_needed(work: &[u32], board: Board, t: u8, q: u8, e: u32) -> u8
    ensures { NeededBy board work.now t q e result }
{
    if MOST_CORES < board.cores || board.cores < q {
        return q;
    }
    let at = (t as usize) * SQUARE + (q as usize) * SIDE;
    if work.len() <= at + (board.cores as usize) {
        return q;
    }
    for b in q..=board.cores {
        if e < work[at + (b as usize)] {
            return b;
        }
    }
    board.cores + 1
}

// The fewest cores of a whole plan; one more than so many where there is none. Where these are more than any board's, 0.
// Numbers for "none", and no Option: `fewest_on` of slack/specs/Problem.antt counts so.
pub fn fewest_cores(work: &[u32], cores: u8) -> u8
    ensures { FewestBy cores work.now result }
{
    if MOST_CORES < cores {
        return 0;
    }
    for b in 1..=cores {
        if has_slack(work, b) {
            return b;
        }
    }
    cores + 1
}
