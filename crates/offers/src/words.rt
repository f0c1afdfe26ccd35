// The words of a search: how many there are, and the greatest of them.
ghost use Rattle.std.specs.Prelude.{◌≡◌, true, false};
ghost use Rattle.offers.specs.Words.{Roomy};

use records::{Board, MOST_CORES, MOST_TASKS};

// The words that the tables take.
pub const WORDS: usize = 14256;

// Above every time within which a module can be.
pub const NONE: u32 = 4294967295;

// Whether the board is in range and the words are enough.
pub fn has_room(board: Board, words: usize) -> bool
    ensures { (result ≡ true → Roomy board words) × (result ≡ false → Roomy board words → ⊥) }
{
    (1..=MOST_TASKS).contains(&board.tasks)
        && (1..=MOST_CORES).contains(&board.cores)
        && WORDS <= words
}
