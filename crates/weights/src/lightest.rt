// The least threshold that some plan is within, and the lightest plans within it: those of the fewest cores, and of these the ones of least
// single-block time (document 02, M-104).
ghost use Rattle.modules.specs.Model.{chain_of};
ghost use Rattle.weights.specs.Lightest.{LightestOf};

use crate::scale::Scale;
use records::Board;
use rests::fewest_cores;
use threshold::least_threshold;

// The least threshold that some plan is within, and the cores and the weight of the lightest plans within it.
#[derive(Clone, Copy)]
pub struct Lightest {
    pub threshold: u64,
    pub cores: u8,
    pub weight: u32,
}

// None where no plan is within TOP, and where the board is out of range or the words are too few: there the words are as they came. Else they hold
// what is laid, and where some plan is within TOP, the slack table of the least threshold and the weighed cells.
pub fn lightest_plans(costs: &[u8], board: Board, work: &mut [u32]) -> Option<Lightest>
    ensures { LightestOf (chain_of costs.now board) board work.old work.new result }
{
    let n = least_threshold(costs, board, work)?;
    let cores = fewest_cores(work, board.cores);
    let weight = (Scale { costs, board, n }).weight_within(work, cores);
    Some(Lightest {
        threshold: n,
        cores,
        weight,
    })
}
