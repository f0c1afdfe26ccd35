// The laws of a chain: one record for each cost, in the order of the cost records. Records are counted from 0.
ghost use Rattle.std.specs.Prelude.{◌≡◌, ◌≤◌};
ghost use Rattle.records.specs.Costs.{most_tasks, key};
ghost use Rattle.fitted.specs.Fill.{law_count, law_key, laws_meet};

use fields::wide;
use laws::{EXTERNAL, LAW_BYTES, law_meets};
use records::Key;

// The kind and task that record n is to have in a chain of k tasks.
fn law_key(k: u8, n: u8) -> Key
    requires { 1 ≤ k }
    ensures { result ≡ law_key k n }
{
    let tasks = wide(k);
    let i = wide(n);
    let pairs = 2 * tasks - 1;
    if i < tasks {
        law_due(3, i + 1)
    } else if i < pairs {
        law_due(4, i - tasks + 1)
    } else {
        law_due(EXTERNAL, i - pairs + 1)
    }
}

// The key of a law's record: no a and no b.
fn law_due(kind: u32, task: u32) -> Key
    ensures { result ≡ key kind task 0 0 }
{
    Key {
        kind,
        task,
        a: 0,
        b: 0,
    }
}

// How many laws a chain of k tasks has.
pub(crate) fn law_count(k: u8) -> u8
    requires { (1 ≤ k) × (k ≤ most_tasks) }
    ensures { result ≡ law_count k }
{
    3 * k - 2
}

// Whether the laws of a chain of k tasks are the due ones, their length and every record.
pub(crate) fn laws_meet(laws: &[u8], k: u8) -> bool
    requires { (1 ≤ k) × (k ≤ most_tasks) }
    ensures { result ≡ laws_meet laws.now k }
{
    let total = law_count(k);
    if laws.len() != ((LAW_BYTES * wide(total)) as usize) {
        return false;
    }
    for n in 0..total {
        let key = law_key(k, n);
        if !law_meets(laws, n, key) {
            return false;
        }
    }
    true
}
