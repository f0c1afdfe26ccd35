// Lookups in the caller's bytes. Each is total: a task or a number of cores that the board does not have gives 0, `false`
// or an empty part. On accepted costs each is the value of the record that bears the key.
ghost use Rattle.std.specs.Prelude.{◌≡◌, ◌≤◌, ◌<◌};
ghost use Rattle.lookups.specs.Lookups.{within, has_next, hand_out_of, need_of, replicable_of, limit_of, cell_of, execution_of, internal_of, pair_place, pair_of, external_of, board_with};

use fields::{byte_at, value_at, wide};
use records::Board;

// Whether i is one of 1 to top.
fn is_within(i: u8, top: u8) -> bool
    ensures { result ≡ within i top }
{
    1 <= i && i <= top
}

// Whether the task is one of the chain's and another follows it.
fn has_next(task: u8, tasks: u8) -> bool
    ensures { result ≡ has_next task tasks }
{
    1 <= task && task < tasks
}

// The place of row i and column j, each counted from 1, among rows of that width.
fn cell(i: u8, j: u8, width: u8) -> u32
    requires { (1 ≤ i) × (1 ≤ j) }
    ensures { (result ≡ cell_of width i j) × (result < 65536) }
{
    (wide(i) - 1) * wide(width) + (wide(j) - 1)
}

// The place of the first kind 5 record of a task.
fn pair_place(k: u8, p: u8, task: u8) -> u32
    requires { (1 ≤ k) × (1 ≤ task) }
    ensures { (result ≡ pair_place k p task) × (result < 33554432) }
{
    let tasks = wide(k);
    let cores = wide(p);
    let square = cores * cores;
    1 + tasks + tasks * cores + (tasks - 1) * cores + (wide(task) - 1) * square
}

// The kind 5 records of a task and the next, as a part of the costs; an empty part where there are none.
pub fn pair(costs: &[u8], board: Board, task: u8) -> &[u8]
    ensures { result.now ≡ pair_of costs.now board task }
{
    if !has_next(task, board.tasks) {
        return &[];
    }
    let cores = wide(board.cores) as usize;
    let start = 8 * (pair_place(board.tasks, board.cores, task) as usize);
    let end = start + 8 * (cores * cores);
    // Not `get`, which would test the order of start and end too, in every lookup of a transfer.
    if end <= costs.len() {
        &costs[start..end]
    } else {
        &[]
    }
}

// The external transfer at s sending and q receiving cores, in ticks, looked up in a pair's part.
pub fn external(part: &[u8], cores: u8, s: u8, q: u8) -> u32
    ensures { result ≡ external_of part.now cores s q }
{
    if is_within(s, cores) && is_within(q, cores) {
        value_at(part, cell(s, q, cores))
    } else {
        0
    }
}

// What handing out to copies costs, D of 0 to 255 (document 02, M-106).
pub fn hand_out_at(costs: &[u8]) -> u32
    ensures { result ≡ hand_out_of costs.now }
{
    byte_at(costs, 0, 1)
}

// The memory need of a task of a chain of k.
pub fn need_at(costs: &[u8], k: u8, task: u8) -> u32
    ensures { result ≡ need_of costs.now (board_with k 0) task }
{
    if is_within(task, k) {
        value_at(costs, wide(task))
    } else {
        0
    }
}

// Whether a task of a chain of k is marked as replicable.
pub fn replicable_at(costs: &[u8], k: u8, task: u8) -> bool
    ensures { result ≡ replicable_of costs.now (board_with k 0) task }
{
    is_within(task, k) && byte_at(costs, wide(task), 2) == 1
}

// The most cores that one copy with a task of a chain of k may have, 0 for no limit (document 02, M-100): the byte of its record.
pub fn limit_at(costs: &[u8], k: u8, task: u8) -> u32
    ensures { result ≡ limit_of costs.now (board_with k 0) task }
{
    if is_within(task, k) {
        byte_at(costs, wide(task), 3)
    } else {
        0
    }
}

// The execution time of a task of a chain of k at p cores of a board of that many.
pub fn execution_at(costs: &[u8], k: u8, cores: u8, task: u8, p: u8) -> u32
    ensures { result ≡ execution_of costs.now (board_with k cores) task p }
{
    if is_within(task, k) && is_within(p, cores) {
        let start = 1 + wide(k);
        value_at(costs, start + cell(task, p, cores))
    } else {
        0
    }
}

// The internal transfer from a task of a chain of k to the next at p cores of a board of that many.
pub fn internal_at(costs: &[u8], k: u8, cores: u8, task: u8, p: u8) -> u32
    ensures { result ≡ internal_of costs.now (board_with k cores) task p }
{
    if has_next(task, k) && is_within(p, cores) {
        let tasks = wide(k);
        let first = 1 + tasks + tasks * wide(cores);
        value_at(costs, first + cell(task, p, cores))
    } else {
        0
    }
}

// The external transfer from a task of a chain of k to the next, looked up in the pair's part.
pub fn external_at(costs: &[u8], k: u8, cores: u8, task: u8, s: u8, q: u8) -> u32
    ensures { result ≡ external_of (pair_of costs.now (board_with k cores) task) cores s q }
{
    let board = Board {
        tasks: k,
        cores,
        capacity: 0,
    };
    let part = pair(costs, board, task);
    external(part, cores, s, q)
}
