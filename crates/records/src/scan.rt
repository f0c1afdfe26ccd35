// Reading a file: its first record, then the count and one walk over the records, kind by kind, in which the earliest faulty one decides.
ghost use Rattle.std.specs.Prelude.{◌≡◌, ◌*◌, ◌≤◌, length, drop};
ghost use Rattle.records.specs.Costs.{due_keys, count_of, first_fault, board_meets, read_head, read_board, read_records, read_costs};
ghost use Rattle.records.specs.Runs.{task_keys};

use crate::keys::{MOST_CORES, MOST_VALUE, count, fault};
use crate::refusal::placed;
use crate::runs::{rows, squares};
use crate::{Board, Key, Refusal};
use fields::{byte_at, value_at};

// The most tasks of a chain.
pub const MOST_TASKS: u8 = 12;

// Record size in bytes.
const RECORD: usize = 8;

// The first fault among the records of kind 2, a record for each of k tasks behind the first record.
pub fn read_tasks(costs: &[u8], k: u8) -> Result<(), Refusal>
    ensures { result ≡ first_fault costs.now 1 (task_keys k) }
{
    for n in 1..(k as u32) + 1 {
        let key = Key {
            kind: 2,
            task: n,
            a: 0,
            b: 0,
        };
        let place = n + 1;
        placed(fault(costs, n, key), place)?;
    }
    Ok(())
}

// The first fault among the records after the first, of which there are as many as keys are due, kind by kind.
fn first_fault(costs: &[u8], k: u8, p: u8) -> Result<(), Refusal>
    requires { (1 ≤ k) × (length costs.now ≡ 8 * count_of k p) }
    ensures { result ≡ first_fault costs.now 1 (drop 1 (due_keys k p)) }
{
    read_tasks(costs, k)?;
    let tasks = k as u32;
    let cores = p as u32;
    let pairs = tasks - 1;
    let execution = rows(costs, tasks, 3, tasks, cores);
    execution?;
    let executed = tasks + tasks * cores;
    let internal = rows(costs, executed, 4, pairs, cores);
    internal?;
    squares(costs, executed + pairs * cores, pairs, cores)
}

// Whether the board's numbers are in range.
fn board_meets(board: Board) -> bool
    ensures { result ≡ board_meets board }
{
    if board.cores < 1 {
        return false;
    }
    if MOST_CORES < board.cores {
        return false;
    }
    if board.tasks < 1 {
        return false;
    }
    if MOST_TASKS < board.tasks {
        return false;
    }
    if board.capacity < 1 {
        return false;
    }
    board.capacity <= MOST_VALUE
}

// The first record's board, or that it is no board's or none in range.
fn read_head(costs: &[u8]) -> Result<Board, Refusal>
    ensures { result ≡ read_head costs.now }
{
    let kind = byte_at(costs, 0, 0);
    if kind != 1 {
        return Err(Refusal::NoBoard);
    }
    let cores = byte_at(costs, 0, 2) as u8;
    let tasks = byte_at(costs, 0, 3) as u8;
    let capacity = value_at(costs, 0);
    let board = Board {
        tasks,
        cores,
        capacity,
    };
    if board_meets(board) {
        Ok(board)
    } else {
        Err(Refusal::BoardRange)
    }
}

// The board that the first record of a file states, or which of refusals 1 to 3 is due.
pub fn read_board(costs: &[u8]) -> Result<Board, Refusal>
    ensures { result ≡ read_board costs.now }
{
    if costs.len() < RECORD {
        return Err(Refusal::NotWhole);
    }
    if costs.len() % RECORD != 0 {
        return Err(Refusal::NotWhole);
    }
    read_head(costs)
}

// The length and the records, for a board in range: refusals 4, 5 and 6.
fn read_records(costs: &[u8], board: Board) -> Result<Board, Refusal>
    requires { 1 ≤ board.tasks }
    ensures { result ≡ read_records costs.now board }
{
    let total = count(board.tasks, board.cores);
    if costs.len() != RECORD * (total as usize) {
        return Err(Refusal::WrongLength);
    }
    first_fault(costs, board.tasks, board.cores)?;
    Ok(board)
}

// The board of a file of cost records, or the refusal that is due.
pub fn read(costs: &[u8]) -> Result<Board, Refusal>
    ensures { result ≡ read_costs costs.now }
{
    let board = read_board(costs)?;
    read_records(costs, board)
}
