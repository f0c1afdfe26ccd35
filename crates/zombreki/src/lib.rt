// The services under plain names: Judge, Bench way and Best plan (document 01, "Three services"), filling in costs from laws (document
// 02, M-101), a task's reach (M-102), a plan's single-block time (M-104) and the timetable of a stream (M-105).
//
// No function has a `requires`: each answers for every content and length. The crate `zombreki_c` exports them to C and Rust callers.
#![tactic(auto)]

ghost use Rattle.std.specs.Prelude.{◌≡◌, ◌<◌};
ghost use Rattle.records.specs.Filled.{filled_of};
ghost use Rattle.modules.specs.Reach.{reach_answer};
ghost use Rattle.figures.specs.Plan.{answer_of};
ghost use Rattle.judge.specs.Judge.{judged};
ghost use Rattle.judge.specs.Timed.{block_time_answer};
ghost use Rattle.greedy.specs.Greedy.{greedy_answer, greedy_bytes};
ghost use Rattle.planners.specs.Best.{best_answer, best_bytes, best_work};
ghost use Rattle.fitted.specs.Fill.{fill_answer, fill_bytes};
ghost use Rattle.timetable.specs.Timetable.{timetable_answer, timetable_entries};
ghost use Rattle.zombreki.specs.Exported.{in_words, words};

use records::Filled;

// A refusal's number (0 for none) and place, or the plan's count of modules, its cores, and of its bottleneck the number of the
// module, counted from 1, its response and its copies. A refusal has zero figures.
#[repr(C)]
#[derive(Clone, Copy)]
pub struct Answer {
    pub refusal: u32,
    pub place: u32,
    pub modules: u32,
    pub cores: u32,
    pub slowest: u32,
    pub response: u32,
    pub copies: u32,
}

// A service's answer in 32-bit numbers.
fn in_words(a: figures::Answer) -> Answer
    requires { a.response < words }
    ensures { result ≡ in_words a }
{
    Answer {
        refusal: a.number,
        place: a.place,
        modules: a.modules,
        cores: a.cores,
        slowest: a.slowest,
        response: a.response as u32,
        copies: a.copies,
    }
}

// Judges plan bytes.
pub fn zombreki_judge(costs: &[u8], plan: &[u8]) -> Answer
    ensures { result ≡ in_words (answer_of (judged costs.now plan.now)) }
{
    in_words(figures::Answer::from(judge::judge(costs, plan)))
}

// Fills in the greedy plan of a grouping.
pub fn zombreki_greedy_plan(costs: &[u8], grouping: u16, plan: &mut [u8]) -> Answer
    ensures { (result ≡ in_words (answer_of (greedy_answer costs.now grouping plan.old)))
        × (plan.new ≡ greedy_bytes costs.now grouping plan.old) }
{
    in_words(figures::Answer::from(greedy::greedy_plan(costs, grouping, plan)))
}

// Fills in the best plan.
pub fn zombreki_best_plan(costs: &[u8], plan: &mut [u8], work: &mut [u32]) -> Answer
    ensures { (result ≡ in_words (answer_of (best_answer costs.now plan.old work.old)))
        × (plan.new ≡ best_bytes costs.now plan.old work.old)
        × (work.new ≡ best_work costs.now plan.old work.old) }
{
    in_words(figures::Answer::from(planners::best_plan(costs, plan, work)))
}

// Fills in the full set of cost records from a first part and laws.
pub fn zombreki_fill_costs(head: &[u8], laws: &[u8], out: &mut [u8]) -> Filled
    ensures { (result ≡ filled_of (fill_answer head.now laws.now out.old))
        × (out.new ≡ fill_bytes head.now laws.now out.old) }
{
    Filled::from(fitted::fill_costs(head, laws, out))
}

// How far a module can go from a first task, by memory.
pub fn zombreki_reach(costs: &[u8], first: u8) -> Filled
    ensures { result ≡ filled_of (reach_answer costs.now first) }
{
    Filled::from(modules::read_reach(costs, first))
}

// The single-block time of plan bytes that Judge passes.
pub fn zombreki_block_time(costs: &[u8], plan: &[u8]) -> Filled
    ensures { result ≡ filled_of (block_time_answer costs.now plan.now) }
{
    Filled::from(judge::block_time(costs, plan))
}

// Fills in when the last module of plan bytes is through with each of the blocks 1 to n.
pub fn zombreki_timetable(costs: &[u8], plan: &[u8], n: u32, table: &mut [u64]) -> Filled
    ensures { (result ≡ filled_of (timetable_answer costs.now plan.now n table.old))
        × (table.new ≡ timetable_entries costs.now plan.now n table.old) }
{
    Filled::from(timetable::timetable(costs, plan, n, table))
}
