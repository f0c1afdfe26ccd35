// The first part, the records of kinds 1 and 2: what is asked of the tasks' records.
ghost use Rattle.std.specs.Prelude.{◌≡◌};
ghost use Rattle.fitted.specs.Fill.{tasks_fault};

use fields::wide;
use records::{Board, Refusal, read_tasks};

// What is wrong in the tasks' records, if anything is: there are as many as the board has tasks, each at its place.
pub(crate) fn tasks_fault(head: &[u8], board: Board) -> Result<(), Refusal>
    ensures { result ≡ tasks_fault head.now board }
{
    let tasks = wide(board.tasks) as usize;
    if head.len() != 8 * (1 + tasks) {
        return Err(Refusal::WrongLength);
    }
    read_tasks(head, board.tasks)
}
