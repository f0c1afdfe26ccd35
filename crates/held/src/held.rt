// Cost records that were read, held in a struct with k and P: thin lookups over the functions on slice and numbers.
ghost use Rattle.std.specs.Prelude.{◌≡◌};
ghost use Rattle.lookups.specs.Lookups.{hand_out_of, need_of, replicable_of, limit_of, execution_of, internal_of, pair_of, external_of, board_with};
ghost use Rattle.held.specs.Held.{Holds};

use lookups::{
    execution_at, external_at, hand_out_at, internal_at, limit_at, need_at, replicable_at,
};

// The records of a file in the caller's bytes, with its tasks and cores.
#[derive(Clone, Copy)]
pub struct Costs<'a> {
    pub records: &'a [u8],
    pub tasks: u8,
    pub cores: u8,
}

// Holds a slice that was read, with the tasks and cores that its board has.
pub fn hold<'a>(records: &'a [u8], tasks: u8, cores: u8) -> Costs<'a>
    ensures { Holds records.entry tasks cores result }
{
    Costs {
        records,
        tasks,
        cores,
    }
}

// What handing out to copies costs, in ticks (document 02, M-106).
pub fn hand_out_held<'a>(c: Costs<'a>) -> u32
    ensures { result ≡ hand_out_of c.entry.records.now }
{
    hand_out_at(c.records)
}

// The memory need of a task, in KiB.
pub fn need_held<'a>(c: Costs<'a>, task: u8) -> u32
    ensures { result ≡ need_of c.entry.records.now (board_with c.entry.tasks c.entry.cores) task }
{
    need_at(c.records, c.tasks, task)
}

// Whether a task is marked as replicable.
pub fn replicable_held<'a>(c: Costs<'a>, task: u8) -> bool
    ensures { result ≡ replicable_of c.entry.records.now (board_with c.entry.tasks c.entry.cores) task }
{
    replicable_at(c.records, c.tasks, task)
}

// The most cores that one copy with a task may have, 0 for no limit.
pub fn limit_held<'a>(c: Costs<'a>, task: u8) -> u32
    ensures { result ≡ limit_of c.entry.records.now (board_with c.entry.tasks c.entry.cores) task }
{
    limit_at(c.records, c.tasks, task)
}

// The execution time of a task at p cores, in ticks.
pub fn execution_held<'a>(c: Costs<'a>, task: u8, p: u8) -> u32
    ensures { result ≡ execution_of c.entry.records.now (board_with c.entry.tasks c.entry.cores) task p }
{
    execution_at(c.records, c.tasks, c.cores, task, p)
}

// The internal transfer from a task to the next at p cores, in ticks.
pub fn internal_held<'a>(c: Costs<'a>, task: u8, p: u8) -> u32
    ensures { result ≡ internal_of c.entry.records.now (board_with c.entry.tasks c.entry.cores) task p }
{
    internal_at(c.records, c.tasks, c.cores, task, p)
}

// The external transfer from a task to the next at s sending and q receiving cores, in ticks.
pub fn external_held<'a>(c: Costs<'a>, task: u8, s: u8, q: u8) -> u32
    ensures { result ≡ external_of (pair_of c.entry.records.now (board_with c.entry.tasks c.entry.cores) task) c.entry.cores s q }
{
    external_at(c.records, c.tasks, c.cores, task, s, q)
}
