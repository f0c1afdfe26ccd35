// Filling in: the values of the laws tested, then written as cost records behind the first part.
ghost use Rattle.std.specs.Prelude.{◌≡◌, true, ◌++◌, ◌+◌, ◌*◌, ◌≤◌, ◌<◌, length, drop, Ok};
ghost use Rattle.std.proofs.lemmas.List.Edits.{sets};
ghost use Rattle.records.specs.Costs.{most_tasks, key, count_of};
ghost use Rattle.fitted.specs.Fill.{cost_count, a_of, b_of, cost_within, values_meet, record_of, cost_records, records_from, law_count, all_records, laws_fault, answer_on, bytes_on, fill_answer, fill_bytes};

use crate::first::tasks_fault;
use crate::order::{law_count, laws_meet};
use fields::wide;
use laws::{Cost, EXTERNAL, cost_at, law_at};
use records::{MOST_VALUE, Refusal, count, read_board};

// Bytes a and b of a cost's record.
#[derive(Clone, Copy)]
struct Cell {
    a: u8,
    b: u8,
}

// How many records a cost of that kind has on a board of p cores.
fn cost_count(kind: u8, p: u8) -> u32
    ensures { (result ≡ cost_count kind p) × (result < 65536) }
{
    let cores = wide(p);
    if wide(kind) == EXTERNAL {
        cores * cores
    } else {
        cores
    }
}

// a and b of the j-th record of a cost, j counted from 0.
fn cell_of(kind: u8, p: u8, j: u32) -> Cell
    requires { (1 ≤ p) × (j < cost_count kind p) }
    ensures { (result.a ≡ a_of kind p j) × (result.b ≡ b_of kind p j) }
{
    if wide(kind) == EXTERNAL {
        let cores = wide(p);
        let row = j / cores + 1;
        let column = j % cores + 1;
        Cell {
            a: row as u8,
            b: column as u8,
        }
    } else {
        let row = j + 1;
        Cell { a: row as u8, b: 0 }
    }
}

// Whether all values of a cost are in range.
fn cost_within(cost: Cost, p: u8) -> bool
    requires { 1 ≤ p }
    ensures { result ≡ cost_within cost p }
{
    let law = cost.law;
    let total = cost_count(cost.kind, p);
    for j in 0..total {
        let cell = cell_of(cost.kind, p, j);
        let value = law_at(law, cell.a, cell.b);
        if (MOST_VALUE as u64) < value {
            return false;
        }
    }
    true
}

// Whether all values of the laws are in range.
fn values_meet(laws: &[u8], k: u8, p: u8) -> bool
    requires { (1 ≤ k) × (k ≤ most_tasks) × (1 ≤ p) }
    ensures { result ≡ values_meet laws.now p 0 (law_count k) }
{
    let total = law_count(k);
    for i in 0..total {
        let cost = cost_at(laws, i);
        if !cost_within(cost, p) {
            return false;
        }
    }
    true
}

// Writes a cost record as record n.
fn put_record(out: &mut [u8], n: u32, kind: u8, task: u8, cell: Cell, value: u32)
    requires { 8 * n + 8 ≤ length out.old }
    ensures { out.new ≡ sets out.old (8 * n) (record_of (key kind task cell.a cell.b) value) }
{
    let at = 8 * (n as usize);
    let [lowest, low, high, highest] = value.to_le_bytes();
    out[at] = kind;
    out[at + 1] = task;
    out[at + 2] = cell.a;
    out[at + 3] = cell.b;
    out[at + 4] = lowest;
    out[at + 5] = low;
    out[at + 6] = high;
    out[at + 7] = highest;
}

// Writes the records of a cost, the first as record n.
fn put_cost(out: &mut [u8], n: u32, cost: Cost, p: u8)
    requires { (1 ≤ p) × (n < 16777216) × (8 * n + 8 * cost_count cost.kind p ≤ length out.old)
        × (cost_within cost p ≡ true) }
    ensures { out.new ≡ sets out.old (8 * n) (cost_records cost p) }
{
    let law = cost.law;
    let total = cost_count(cost.kind, p);
    for j in 0..total {
        let cell = cell_of(cost.kind, p, j);
        let value = law_at(law, cell.a, cell.b) as u32;
        put_record(out, n + j, cost.kind, cost.task, cell, value);
    }
}

// Writes the records of all laws, the first as record 1 + k.
fn put_costs(laws: &[u8], out: &mut [u8], k: u8, p: u8)
    requires { (1 ≤ k) × (k ≤ most_tasks) × (1 ≤ p) × (values_meet laws.now p 0 (law_count k) ≡ true)
        × (8 * (1 + k) + length (records_from laws.now p 0 (law_count k)) ≤ length out.old) }
    ensures { out.new ≡ sets out.old (8 * (1 + k)) (records_from laws.now p 0 (law_count k)) }
{
    let total = law_count(k);
    let mut n = 1 + wide(k);
    for i in 0..total {
        let cost = cost_at(laws, i);
        put_cost(out, n, cost, p);
        n += cost_count(cost.kind, p);
    }
}

// Copies the first part to the start of the output.
fn put_head(head: &[u8], out: &mut [u8])
    requires { length head.now ≤ length out.old }
    ensures { out.new ≡ head.now ++ drop (length head.now) out.old }
{
    // Not `copy_from_slice`: a copy of no constant length may need `memcpy`, which the library may not.
    for (i, byte) in head.iter().enumerate() {
        out[i] = *byte;
    }
}

// What is wrong in the laws on a board of k tasks and p cores, if anything is: every law goes before any value.
fn laws_fault(laws: &[u8], k: u8, p: u8) -> Result<(), Refusal>
    requires { (1 ≤ k) × (k ≤ most_tasks) × (1 ≤ p) }
    ensures { result ≡ laws_fault laws.now k p }
{
    if !laws_meet(laws, k) {
        return Err(Refusal::WrongLaws);
    }
    if !values_meet(laws, k, p) {
        return Err(Refusal::LawRange);
    }
    Ok(())
}

// Writes the first part and the records of all laws.
fn put_all(head: &[u8], laws: &[u8], out: &mut [u8], k: u8, p: u8)
    requires { (1 ≤ k) × (k ≤ most_tasks) × (1 ≤ p) × (length head.now ≡ 8 * (1 + k)) × (laws_fault laws.now k p ≡ Ok tt)
        × (8 * count_of k p ≤ length out.old) }
    ensures { out.new ≡ all_records head.now laws.now k p ++ drop (8 * count_of k p) out.old }
{
    put_head(head, out);
    put_costs(laws, out, k, p);
}

// Fills in the costs of a board of k tasks and p cores, whose first part is `head`, and answers how many bytes they are.
fn fill_on(head: &[u8], laws: &[u8], out: &mut [u8], k: u8, p: u8) -> Result<u32, Refusal>
    requires { (1 ≤ k) × (k ≤ most_tasks) × (1 ≤ p) × (length head.now ≡ 8 * (1 + k)) }
    ensures { (result ≡ answer_on laws.now k p out.old)
        × (out.new ≡ bytes_on head.now laws.now k p out.old) }
{
    laws_fault(laws, k, p)?;
    let bytes = 8 * count(k, p);
    if out.len() < (bytes as usize) {
        return Err(Refusal::ShortOutput);
    }
    put_all(head, laws, out, k, p);
    Ok(bytes)
}

// Fills in the full set of cost records from the first part and the laws, and answers how many bytes it is; a refusal leaves the output
// as it is.
pub fn fill_costs(head: &[u8], laws: &[u8], out: &mut [u8]) -> Result<u32, Refusal>
    ensures { (result ≡ fill_answer head.now laws.now out.old)
        × (out.new ≡ fill_bytes head.now laws.now out.old) }
{
    let board = read_board(head)?;
    tasks_fault(head, board)?;
    fill_on(head, laws, out, board.tasks, board.cores)
}
