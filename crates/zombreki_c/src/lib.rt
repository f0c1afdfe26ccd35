// The services of the crate `zombreki`, exported to C and Rust callers. Each export hands on what zombreki's function of the same name
// answers and leaves in what is lent, and promises it in the same words.
//
// A slice crosses as a pointer and a count of elements. No function has a `requires`: each answers for every content and length.
// include/zombreki.h declares them for C, and says what no proof covers.
#![tactic(auto)]

ghost use Rattle.std.specs.Prelude.{◌≡◌};
ghost use Rattle.records.specs.Filled.{filled_of};
ghost use Rattle.modules.specs.Reach.{reach_answer};
ghost use Rattle.figures.specs.Plan.{answer_of};
ghost use Rattle.judge.specs.Judge.{judged};
ghost use Rattle.judge.specs.Timed.{block_time_answer};
ghost use Rattle.greedy.specs.Greedy.{greedy_answer, greedy_bytes};
ghost use Rattle.planners.specs.Best.{best_answer, best_bytes, best_work};
ghost use Rattle.fitted.specs.Fill.{fill_answer, fill_bytes};
ghost use Rattle.timetable.specs.Timetable.{timetable_answer, timetable_entries};
ghost use Rattle.zombreki.specs.Exported.{in_words};

use records::Filled;
use zombreki::Answer;

// Judges plan bytes.
#[unsafe(no_mangle)]
pub extern "C" fn zombreki_judge(costs: &[u8], plan: &[u8]) -> Answer
    ensures { result ≡ in_words (answer_of (judged costs.now plan.now)) }
{
    zombreki::zombreki_judge(costs, plan)
}

// Fills in the greedy plan of a grouping.
#[unsafe(no_mangle)]
pub extern "C" fn zombreki_greedy_plan(costs: &[u8], grouping: u16, plan: &mut [u8]) -> Answer
    ensures { (result ≡ in_words (answer_of (greedy_answer costs.now grouping plan.old)))
        × (plan.new ≡ greedy_bytes costs.now grouping plan.old) }
{
    zombreki::zombreki_greedy_plan(costs, grouping, plan)
}

// Fills in the best plan.
#[unsafe(no_mangle)]
pub extern "C" fn zombreki_best_plan(costs: &[u8], plan: &mut [u8], work: &mut [u32]) -> Answer
    ensures { (result ≡ in_words (answer_of (best_answer costs.now plan.old work.old)))
        × (plan.new ≡ best_bytes costs.now plan.old work.old)
        × (work.new ≡ best_work costs.now plan.old work.old) }
{
    zombreki::zombreki_best_plan(costs, plan, work)
}

// Fills in the full set of cost records from a first part and laws.
#[unsafe(no_mangle)]
pub extern "C" fn zombreki_fill_costs(head: &[u8], laws: &[u8], out: &mut [u8]) -> Filled
    ensures { (result ≡ filled_of (fill_answer head.now laws.now out.old))
        × (out.new ≡ fill_bytes head.now laws.now out.old) }
{
    zombreki::zombreki_fill_costs(head, laws, out)
}

// How far a module can go from a first task, by memory.
#[unsafe(no_mangle)]
pub extern "C" fn zombreki_reach(costs: &[u8], first: u8) -> Filled
    ensures { result ≡ filled_of (reach_answer costs.now first) }
{
    zombreki::zombreki_reach(costs, first)
}

// The single-block time of plan bytes that Judge passes.
#[unsafe(no_mangle)]
pub extern "C" fn zombreki_block_time(costs: &[u8], plan: &[u8]) -> Filled
    ensures { result ≡ filled_of (block_time_answer costs.now plan.now) }
{
    zombreki::zombreki_block_time(costs, plan)
}

// Fills in when the last module of plan bytes is through with each of the blocks 1 to n.
#[unsafe(no_mangle)]
pub extern "C" fn zombreki_timetable(costs: &[u8], plan: &[u8], n: u32, table: &mut [u64]) -> Filled
    ensures { (result ≡ filled_of (timetable_answer costs.now plan.now n table.old))
        × (table.new ≡ timetable_entries costs.now plan.now n table.old) }
{
    zombreki::zombreki_timetable(costs, plan, n, table)
}
