// How many records a file has, and the test of one record against a due key.
ghost use Rattle.std.specs.Prelude.{◌≡◌};
ghost use Rattle.records.specs.Costs.{task_meets, key_meets, value_meets, fault_at, count_of};

use crate::{Fault, Key};
use fields::{byte_at, value_at, wide};

// The most that a value of any kind may be, in KiB or ticks.
pub const MOST_VALUE: u32 = 1000000;

// The most cores of a board, and the greatest limit of a task.
pub const MOST_CORES: u8 = 32;

// How many records a file of k tasks and p cores has.
pub fn count(k: u8, p: u8) -> u32
    ensures { result ≡ count_of k p }
{
    if k < 1 {
        return 1;
    }
    let tasks = wide(k);
    let cores = wide(p);
    let pairs = tasks - 1;
    let square = cores * cores;
    1 + tasks + tasks * cores + pairs * cores + pairs * square
}

// Whether the task byte of record n is the key's; that of kind 1 is passed over (document 02, M-106).
fn task_meets(costs: &[u8], n: u32, key: Key) -> bool
    ensures { result ≡ task_meets costs.now n key }
{
    if key.kind == 1 {
        return true;
    }
    let task = byte_at(costs, n, 1);
    task == key.task
}

// Whether the first four bytes of record n are the key, the task byte of kind 1 and the flag and the limit of kind 2 aside.
fn key_meets(costs: &[u8], n: u32, key: Key) -> bool
    ensures { result ≡ key_meets costs.now n key }
{
    let kind = byte_at(costs, n, 0);
    if kind != key.kind {
        return false;
    }
    if !task_meets(costs, n, key) {
        return false;
    }
    if kind == 2 {
        return true;
    }
    let a = byte_at(costs, n, 2);
    if a != key.a {
        return false;
    }
    let b = byte_at(costs, n, 3);
    b == key.b
}

// Whether the value of record n is in range and, where the key is of kind 2, the flag and the limit too.
fn value_meets(costs: &[u8], n: u32, key: Key) -> bool
    ensures { result ≡ value_meets costs.now n key }
{
    let value = value_at(costs, n);
    if MOST_VALUE < value {
        return false;
    }
    if key.kind != 2 {
        return true;
    }
    let flag = byte_at(costs, n, 2);
    if 1 < flag {
        return false;
    }
    let limit = byte_at(costs, n, 3);
    limit <= wide(MOST_CORES)
}

// What is wrong in record n where the key is due; in one record the key goes first.
pub fn fault(costs: &[u8], n: u32, key: Key) -> Result<(), Fault>
    ensures { result ≡ fault_at costs.now n key }
{
    if !key_meets(costs, n, key) {
        return Err(Fault::WrongKey);
    }
    if value_meets(costs, n, key) {
        Ok(())
    } else {
        Err(Fault::WrongValue)
    }
}
