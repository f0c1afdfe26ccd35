// The single-block time of plan bytes that Judge passes (document 02, M-104).
ghost use Rattle.std.specs.Prelude.{◌≡◌};
ghost use Rattle.judge.specs.Timed.{block_time_answer};

use crate::verdict::judge_bytes;
use records::Refusal;

// The single-block time in ticks, or Judge's refusal.
pub fn block_time(costs: &[u8], plan: &[u8]) -> Result<u32, Refusal>
    ensures { result ≡ block_time_answer costs.now plan.now }
{
    let board = records::read(costs)?;
    judge_bytes(costs, board, plan)?;
    let time = figures::block_time(costs, board, plan);
    Ok(time as u32)
}
