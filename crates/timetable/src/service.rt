// The service: Judge's refusals, then 20 and 21, else the table.
ghost use Rattle.std.specs.Prelude.{◌≡◌, ◌≤◌};
ghost use Rattle.layout.specs.Layout.{most_modules, modules_from};
ghost use Rattle.judge.specs.Judge.{first_failing, at_place};
ghost use Rattle.timetable.specs.Timetable.{single_test, blocks_test, timetable_answer, timetable_entries};

use crate::stream::fill;
use judge::judge_bytes;
use layout::{module_at, module_count};
use records::Refusal;

// The most blocks of a table.
const MOST_BLOCKS: u32 = 1000;

// Refusal 20's place: the first module with copies, counted from 1.
fn copied_at(plan: &[u8], count: u32) -> Option<u32>
    requires { count ≤ most_modules }
    ensures { result ≡ at_place (first_failing single_test 1 (modules_from plan.now 0 count)) }
{
    for i in 0..count {
        let m = module_at(plan, i);
        if 1 < m.copies {
            return Some(i + 1);
        }
    }
    None
}

// Whether n blocks may be asked for of a table of that length (refusal 21).
fn may_ask(n: u32, room: usize) -> bool
    ensures { result ≡ blocks_test n room }
{
    1 <= n && n <= MOST_BLOCKS && n as usize <= room
}

// Fills in the ends of blocks 1 to n and answers n, or refuses and leaves the table.
pub fn timetable(costs: &[u8], plan: &[u8], n: u32, table: &mut [u64]) -> Result<u32, Refusal>
    ensures { (result ≡ timetable_answer costs.now plan.now n table.old)
        × (table.new ≡ timetable_entries costs.now plan.now n table.old) }
{
    let board = records::read(costs)?;
    judge_bytes(costs, board, plan)?;
    let count = module_count(plan, board.tasks);
    if let Some(copied) = copied_at(plan, count) {
        return Err(Refusal::Copied(copied));
    }
    if !may_ask(n, table.len()) {
        return Err(Refusal::WrongBlocks);
    }
    fill(costs, board, plan, count, n as usize, table);
    Ok(n)
}
