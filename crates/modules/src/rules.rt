// What a module has to keep by itself, and the fewest cores that its memory allows.
ghost use Rattle.std.specs.Prelude.{◌≡◌};
ghost use Rattle.modules.specs.Model.{chain_of};
ghost use Rattle.modules.specs.Rules.{copies_allowed, memory_fits, allows, within_limit, module_rules, still_kept, fewest_cores};

use crate::cost::{marks, shares};
use records::Board;

// Whether the tasks' shares of each of p cores (document 02, M-103) add to at most the capacity of one; on no cores nothing fits.
pub fn memory_fits(costs: &[u8], board: Board, first: u8, last: u8, p: u8) -> bool
    ensures { result ≡ memory_fits (chain_of costs.now board) first last p }
{
    1 <= p && shares(costs, board, first, last, p) <= (board.capacity as u64)
}

// Whether the module may have r copies.
pub fn copies_allowed(costs: &[u8], board: Board, first: u8, last: u8, r: u8) -> bool
    ensures { result ≡ copies_allowed (chain_of costs.now board) first last r }
{
    r <= 1 || marks(costs, board, first, last) == 0
}

// Whether a task allows p cores of a copy: it has no limit, or p is at most it.
fn task_allows(costs: &[u8], board: Board, t: u8, p: u8) -> bool
    ensures { result ≡ allows ((chain_of costs.now board).limit t) p }
{
    let limit = held::limit(costs, board, t);
    limit == 0 || (p as u32) <= limit
}

// Whether p cores of a copy are within the module's limit (document 02, M-100): each of its tasks allows them.
pub fn within_limit(costs: &[u8], board: Board, first: u8, last: u8, p: u8) -> bool
    ensures { result ≡ within_limit (chain_of costs.now board) first last p }
{
    for t in first..=last {
        if !task_allows(costs, board, t, p) {
            return false;
        }
    }
    true
}

// Whether the module may have r copies of p cores.
pub fn rules_met(costs: &[u8], board: Board, first: u8, last: u8, r: u8, p: u8) -> bool
    ensures { result ≡ module_rules (chain_of costs.now board) first last r p }
{
    copies_allowed(costs, board, first, last, r)
        && memory_fits(costs, board, first, last, p)
        && within_limit(costs, board, first, last, p)
}

// What is left to ask of a module of one copy that kept the rules without its last task: that task's limit, and that sum, the module's
// shares with that task's, is at most the capacity.
pub fn still_kept(costs: &[u8], board: Board, last: u8, p: u8, sum: u64) -> bool
    ensures { result ≡ still_kept (chain_of costs.now board) last p sum }
{
    task_allows(costs, board, last, p) && sum <= (board.capacity as u64)
}

// The fewest cores that the module's memory allows, tried from 1 on; one more than the board has where none do, since by M-103 such a module
// counts as needing more than P.
pub fn fewest_cores(costs: &[u8], board: Board, first: u8, last: u8) -> u32
    ensures { result ≡ fewest_cores (chain_of costs.now board) first last }
{
    for p in 1..=board.cores {
        if memory_fits(costs, board, first, last, p) {
            return p as u32;
        }
    }
    (board.cores as u32) + 1
}
