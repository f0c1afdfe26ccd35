// Sums over a module's tasks, from first to last, 0 where last is below first, and what is made of them. Whatever the bytes are, 255
// tasks of 32-bit values cannot overflow 64 bits.
ghost use Rattle.std.specs.Prelude.{◌≡◌, ℕ, ◌<◌};
ghost use Rattle.modules.specs.Model.{chain_of, gather, nothing, body as body_of, transfer as transfer_of, handed as handed_to, response as response_to, passage as passage_of};
ghost use Rattle.modules.specs.Rules.{mark, share as share_of, shares as shares_of};

use crate::Module;
use records::Board;
use rounding::rounded_up;

// The execution of each task at p cores and the internal transfer at p between each two, in ticks.
pub fn body(costs: &[u8], board: Board, first: u8, last: u8, p: u8) -> u64
    ensures { (result ≡ body_of (chain_of costs.now board) first last p) × (result < 4398046511104) }
{
    if last < first {
        return 0;
    }
    let mut sum: u64 = 0;
    // A transfer stands between two tasks, and none behind the last: that one is added after the loop.
    for t in first..last {
        sum += held::execution(costs, board, t, p) as u64;
        sum += held::internal(costs, board, t, p) as u64;
    }
    sum + (held::execution(costs, board, last, p) as u64)
}

// The values of a module's tasks, each of at most 32 bits, added up.
fn added_up<F: Fn(u8) -> u64>(value: F, first: u8, last: u8) -> u64
    requires { (t : ℕ) → t < 256 → F.pre value t × ((x : ℕ) → F.post value t x → x < 4294967296) }
    ensures { (f : ℕ → ℕ) → ((t x : ℕ) → t < 256 → F.post value t x → x ≡ f t) → result ≡ gather f nothing first last }
{
    let mut sum: u64 = 0;
    for t in first..=last {
        sum += value(t);
    }
    sum
}

// A task's share of the memory of each of p cores (document 02, M-103), in KiB; 0 on no cores.
pub fn share(costs: &[u8], board: Board, t: u8, p: u8) -> u64
    ensures { (result ≡ share_of (chain_of costs.now board) t p) × (result < 4294967296) }
{
    let need = held::need(costs, board, t);
    rounded_up(need, p)
}

// The tasks' shares, added up.
pub(crate) fn shares(costs: &[u8], board: Board, first: u8, last: u8, p: u8) -> u64
    ensures { result ≡ shares_of (chain_of costs.now board) first last p }
{
    added_up(|t| share(costs, board, t, p), first, last)
}

// 1 for a task that is not replicable, else 0.
fn mark_of(costs: &[u8], board: Board, t: u8) -> u64
    ensures { (result ≡ mark (chain_of costs.now board) t) × (result < 2) }
{
    if held::replicable(costs, board, t) {
        0
    } else {
        1
    }
}

// How many of the tasks are not replicable.
pub(crate) fn marks(costs: &[u8], board: Board, first: u8, last: u8) -> u64
    ensures { result ≡ gather (mark (chain_of costs.now board)) nothing first last }
{
    added_up(|t| mark_of(costs, board, t), first, last)
}

// The external transfer from task t to the next at s sending and q receiving cores; 0 where one of them is 0.
pub fn transfer(costs: &[u8], board: Board, t: u8, s: u8, q: u8) -> u32
    ensures { result ≡ transfer_of (chain_of costs.now board) t s q }
{
    held::transfer(costs, board, t, s, q)
}

// What handing out to r copies costs (document 02, M-106): D if r is above 1.
pub fn handed(costs: &[u8], board: Board, r: u8) -> u32
    ensures { result ≡ handed_to (chain_of costs.now board) r }
{
    if 1 < r {
        held::hand_out(costs, board)
    } else {
        0
    }
}

// What the module m adds to the single-block time of a plan (document 02, M-104): its body, what it sends to a module of q cores, 0 for
// none, and what handing out to its copies costs.
pub fn passage(costs: &[u8], board: Board, m: Module, q: u8) -> u64
    ensures { (result ≡ passage_of (chain_of costs.now board) m.first m.last m.copies m.cores q) × (result < 4406636445696) }
{
    let sent = transfer(costs, board, m.last, m.cores, q) as u64;
    let out = handed(costs, board, m.copies) as u64;
    body(costs, board, m.first, m.last, m.cores) + sent + out
}

// The response of the module m between one of s cores and one of q, 0 for none.
pub fn response_of(costs: &[u8], board: Board, s: u8, m: Module, q: u8) -> u64
    ensures { (result ≡ response_to (chain_of costs.now board) s m.first m.last m.copies m.cores q) × (result < 8796093022208) }
{
    let before = m.first.saturating_sub(1);
    let received = transfer(costs, board, before, s, m.cores) as u64;
    received + passage(costs, board, m, q)
}
