// Lookups on a slice and a board, each by way of the struct that holds both (held.rt).
ghost use Rattle.std.specs.Prelude.{◌≡◌};
ghost use Rattle.lookups.specs.Lookups.{hand_out_of, need_of, replicable_of, limit_of, execution_of, internal_of, pair_of, external_of};

use crate::held::{
    execution_held, external_held, hand_out_held, hold, internal_held, limit_held, need_held,
    replicable_held,
};
use records::Board;

// What handing out to copies costs, in ticks (document 02, M-106).
pub fn hand_out(costs: &[u8], board: Board) -> u32
    ensures { result ≡ hand_out_of costs.now }
{
    hand_out_held(hold(costs, board.tasks, board.cores))
}

// The memory need of a task, in KiB.
pub fn need(costs: &[u8], board: Board, task: u8) -> u32
    ensures { result ≡ need_of costs.now board task }
{
    need_held(hold(costs, board.tasks, board.cores), task)
}

// Whether a task is marked as replicable.
pub fn replicable(costs: &[u8], board: Board, task: u8) -> bool
    ensures { result ≡ replicable_of costs.now board task }
{
    replicable_held(hold(costs, board.tasks, board.cores), task)
}

// The most cores that one copy with a task may have, 0 for no limit.
pub fn limit(costs: &[u8], board: Board, task: u8) -> u32
    ensures { result ≡ limit_of costs.now board task }
{
    limit_held(hold(costs, board.tasks, board.cores), task)
}

// The execution time of a task at p cores, in ticks.
pub fn execution(costs: &[u8], board: Board, task: u8, p: u8) -> u32
    ensures { result ≡ execution_of costs.now board task p }
{
    execution_held(hold(costs, board.tasks, board.cores), task, p)
}

// The internal transfer from a task to the next at p cores, in ticks.
pub fn internal(costs: &[u8], board: Board, task: u8, p: u8) -> u32
    ensures { result ≡ internal_of costs.now board task p }
{
    internal_held(hold(costs, board.tasks, board.cores), task, p)
}

// The external transfer from a task to the next at s sending and q receiving cores, in ticks.
pub fn transfer(costs: &[u8], board: Board, task: u8, s: u8, q: u8) -> u32
    ensures { result ≡ external_of (pair_of costs.now board task) board.cores s q }
{
    external_held(hold(costs, board.tasks, board.cores), task, s, q)
}
