// How far a module can go (document 02, M-102): the last task of a first task's longest module that needs at most the board's cores.
ghost use Rattle.std.specs.Prelude.{◌≡◌};
ghost use Rattle.modules.specs.Model.{chain_of};
ghost use Rattle.modules.specs.Reach.{reach as reach_to, reach_answer};

use crate::rules::fewest_cores;
use records::{Board, Refusal};

// The reach of a first task, by memory alone; 0 where the task by itself needs more cores than the board has, and for a task that is not
// the chain's. A module needs at most the board's cores exactly if it ends within its reach, so the first that needs more ends the search.
fn reach(costs: &[u8], board: Board, first: u8) -> u8
    ensures { result ≡ reach_to (chain_of costs.now board) first }
{
    // Tasks are counted from 1: the definition gives 0 for a task 0, whatever the chain is.
    if first == 0 {
        return 0;
    }
    let mut end: u8 = 0;
    for last in first..=board.tasks {
        if (board.cores as u32) < fewest_cores(costs, board, first, last) {
            return end;
        }
        end = last;
    }
    end
}

// The reach of a task by a cost file, or refusals 1 to 6.
pub fn read_reach(costs: &[u8], first: u8) -> Result<u32, Refusal>
    ensures { result ≡ reach_answer costs.now first }
{
    let board = records::read(costs)?;
    let count = reach(costs, board, first) as u32;
    Ok(count)
}
