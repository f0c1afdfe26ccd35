// Twelve records of 4 bytes: first task, last task, r and p. Bytes after the 48th are never read or written, and what lies past the end
// of the slice reads as 0. Records are counted from 0.
ghost use Rattle.std.specs.Prelude.{◌≡◌, ◌≤◌, ◌<◌, get_or};
ghost use Rattle.layout.specs.Layout.{most_modules, module_at, record_of, module_count, put_module, put_plan};

use crate::{MOST_MODULES, PLAN_BYTES};
use modules::Module;

fn byte_at(plan: &[u8], i: usize) -> u8
    ensures { result ≡ get_or plan.now i 0 }
{
    plan.get(i).copied().unwrap_or(0)
}

// Record i, one of the twelve; zeros past the end of the bytes.
fn record_at(plan: &[u8], i: u32) -> Module
    requires { i < most_modules }
    ensures { result ≡ module_at plan.now i }
{
    let at = 4 * (i as usize);
    Module {
        first: byte_at(plan, at),
        last: byte_at(plan, at + 1),
        copies: byte_at(plan, at + 2),
        cores: byte_at(plan, at + 3),
    }
}

// Record i of the twelve; zeros where there is no such record, as `record_of` has it.
pub fn module_at(plan: &[u8], i: u32) -> Module
    ensures { result ≡ record_of plan.now i }
{
    if i < MOST_MODULES {
        record_at(plan, i)
    } else {
        Module::default()
    }
}

// How many modules the plan bytes of a chain of k tasks say: the records up to the one whose last task is k. Many functions ask it once, and none
// in a loop over costs, so it stands in the library once.
#[inline(never)]
pub fn module_count(plan: &[u8], k: u8) -> u32
    ensures { (result ≡ module_count plan.now k) × (result ≤ most_modules) }
{
    for i in 0..MOST_MODULES {
        let m = record_at(plan, i);
        if m.last == k {
            return i + 1;
        }
    }
    MOST_MODULES
}

// Writes the module m as record i, where the bytes have such a record.
pub fn put_module(plan: &mut [u8], i: u32, m: Module)
    ensures { plan.new ≡ put_module plan.old i m }
{
    if i < MOST_MODULES && PLAN_BYTES <= plan.len() {
        let at = 4 * (i as usize);
        plan[at] = m.first;
        plan[at + 1] = m.last;
        plan[at + 2] = m.copies;
        plan[at + 3] = m.cores;
    }
}

// Copies a whole plan to the start of the lent bytes, where they have room for one.
pub fn put_plan(from: [u8; PLAN_BYTES], plan: &mut [u8])
    ensures { plan.new ≡ put_plan from plan.old }
{
    if PLAN_BYTES <= plan.len() {
        plan[..PLAN_BYTES].copy_from_slice(&from);
    }
}
