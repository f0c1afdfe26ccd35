// The plan that is read off, judged.
ghost use Rattle.std.specs.Prelude.{◌≡◌, true, ◌≤◌, IfSome};
ghost use Rattle.modules.specs.Model.{chain_of};
ghost use Rattle.slack.specs.Problem.{Sized, SomeWithin};
ghost use Rattle.sketch.specs.Slacks.{FoundIn};

use crate::Found;
use crate::onward::Table;
use crate::slacks::fewest;
use guess::{TOP, threshold_of};
use layout::PLAN_BYTES;
use records::{Board, MOST_CORES, MOST_TASKS};

impl Table<'_> {
    // The threshold of the plan that the bytes are by Judge, where they are one and it is up to TOP.
    fn judged(&self, plan: [u8; PLAN_BYTES]) -> Option<u64>
        ensures { IfSome result (λ n. SomeWithin (chain_of self.now.costs.now self.now.board) n) }
    {
        let Ok(figures) = judge::judge_bytes(self.costs, self.board, &plan) else {
            return None;
        };
        let own = threshold_of(figures.response, figures.copies);
        if own <= TOP { Some(own) } else { None }
    }
}

// Whether the board is in range: one of 1 to 12 tasks and 1 to 32 cores.
fn in_range(board: Board) -> bool
    ensures { result ≡ true → Sized board }
{
    (1..=MOST_TASKS).contains(&board.tasks) && (1..=MOST_CORES).contains(&board.cores)
}

// A threshold that some plan is within, by the slack table of the threshold n, where a plan is read off it.
pub fn some_plan(costs: &[u8], board: Board, work: &[u32], n: u64) -> Found
    ensures { FoundIn (chain_of costs.now board) result }
{
    if !in_range(board) || TOP < n {
        return Found {
            threshold: None,
            cores: 0,
        };
    }
    let cores = fewest(work, board.cores);
    let table = Table {
        costs,
        board,
        work,
        n,
    };
    let plan = table.read_off(cores);
    Found {
        threshold: table.judged(plan),
        cores,
    }
}
