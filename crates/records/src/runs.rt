// The records after the tasks' own in the order of their keys: run by run, so that each key is the one before it and a step.
ghost use Rattle.std.specs.Prelude.{◌≡◌, ◌+◌, ◌*◌, ◌≤◌, ◌<◌, length};
ghost use Rattle.records.specs.Costs.{join, fault_at, first_fault};
ghost use Rattle.records.specs.Runs.{Word, Within, Plain, row_keys, line_keys, square_keys};

use crate::keys::MOST_VALUE;
use crate::refusal::placed;
use crate::{Fault, Key, Refusal};
use fields::wide;

// The number in the four bytes from `start` on, all of which are there.
fn word_from(costs: &[u8], start: usize) -> u32
    requires { start + 4 ≤ length costs.now }
    ensures { Word costs.now start result }
{
    let x = wide(costs[start]);
    let y = wide(costs[start + 1]);
    let z = wide(costs[start + 2]);
    let w = wide(costs[start + 3]);
    x + 256 * y + 65536 * z + 16777216 * w
}

// What is wrong in record n, as `fault` says it, where the key is of kind 3, 4 or 5: its four bytes are compared at once.
fn plain_fault(costs: &[u8], n: u32, key: Key) -> Result<(), Fault>
    requires { Within costs.now n × Plain key }
    ensures { result ≡ fault_at costs.now n key }
{
    let start = 8 * (n as usize);
    let due = key.kind + 256 * key.task + 65536 * key.a + 16777216 * key.b;
    let found = word_from(costs, start);
    if found != due {
        return Err(Fault::WrongKey);
    }
    let value = word_from(costs, start + 4);
    if MOST_VALUE < value {
        Err(Fault::WrongValue)
    } else {
        Ok(())
    }
}

// The first fault among the p records after record `before`, which are to be of that kind and task with a = 1, 2, .. p. It and `line` differ in
// the byte of the key that counts, and the three below in whose runs they are: one function over a closure that makes the key, or walks the
// run, would promise the same over that closure, and read no plainer.
fn row(costs: &[u8], before: u32, kind: u32, task: u32, p: u32) -> Result<(), Refusal>
    requires { Within costs.now (before + p) × (3 ≤ kind) × (kind < 256) × (task < 256) × (p < 256) }
    ensures { result ≡ first_fault costs.now (before + 1) (row_keys kind p task) }
{
    for a in 1..p + 1 {
        let n = before + a;
        let key = Key {
            kind,
            task,
            a,
            b: 0,
        };
        let place = n + 1;
        placed(plain_fault(costs, n, key), place)?;
    }
    Ok(())
}

// The same where they are to be of kind 5 with that task and a, and b = 1, 2, .. p.
fn line(costs: &[u8], before: u32, task: u32, a: u32, p: u32) -> Result<(), Refusal>
    requires { Within costs.now (before + p) × (task < 256) × (a < 256) × (p < 256) }
    ensures { result ≡ first_fault costs.now (before + 1) (line_keys p task a) }
{
    for b in 1..p + 1 {
        let n = before + b;
        let key = Key {
            kind: 5,
            task,
            a,
            b,
        };
        let place = n + 1;
        placed(plain_fault(costs, n, key), place)?;
    }
    Ok(())
}

// The first fault among the records of kind 3 or 4 after record `before`: a row for each task.
pub(crate) fn rows(costs: &[u8], before: u32, kind: u32, tasks: u32, p: u32) -> Result<(), Refusal>
    requires { Within costs.now (before + tasks * p) × (3 ≤ kind) × (kind < 256) × (tasks < 256) × (p < 256) }
    ensures { result ≡ first_fault costs.now (before + 1) (join tasks (row_keys kind p)) }
{
    let mut done = before;
    for t in 1..tasks + 1 {
        row(costs, done, kind, t, p)?;
        done += p;
    }
    Ok(())
}

// The first fault among the records of kind 5 and one task after record `before`: a line for each a.
fn square(costs: &[u8], before: u32, task: u32, p: u32) -> Result<(), Refusal>
    requires { Within costs.now (before + p * p) × (task < 256) × (p < 256) }
    ensures { result ≡ first_fault costs.now (before + 1) (square_keys p task) }
{
    let mut done = before;
    for a in 1..p + 1 {
        line(costs, done, task, a, p)?;
        done += p;
    }
    Ok(())
}

// The first fault among the records of kind 5 after record `before`: a square for each task.
pub(crate) fn squares(costs: &[u8], before: u32, tasks: u32, p: u32) -> Result<(), Refusal>
    requires { Within costs.now (before + tasks * (p * p)) × (tasks < 256) × (p < 256) }
    ensures { result ≡ first_fault costs.now (before + 1) (join tasks (square_keys p)) }
{
    let size = p * p;
    let mut done = before;
    for t in 1..tasks + 1 {
        square(costs, done, t, p)?;
        done += size;
    }
    Ok(())
}
