// The first of the lightest plans within the least threshold.
ghost use Rattle.modules.specs.Model.{chain_of};
ghost use Rattle.walk.specs.First.{WalkedTo};

use crate::tables::Tables;
use layout::PLAN_BYTES;
use records::Board;
use weights::{UNIT, lightest_plans};

// The bytes of the plan, where some plan is within TOP, and the lightest weigh less than what stands for none, as they do on accepted costs. Else
// none; and where the board is out of range or the words are too few, the words are as they came.
pub fn first_plan(costs: &[u8], board: Board, work: &mut [u32]) -> Option<[u8; PLAN_BYTES]>
    ensures { WalkedTo (chain_of costs.now board) board work.old work.new result }
{
    let x = lightest_plans(costs, board, work)?;
    if UNIT * ((board.cores as u32) + 1) <= x.weight {
        return None;
    }
    let tables = Tables {
        costs,
        board,
        work,
        n: x.threshold,
    };
    let mut plan = [0u8; PLAN_BYTES];
    tables.lay_path(x.cores, x.weight, &mut plan);
    Some(plan)
}
