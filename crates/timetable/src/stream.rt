// A stream of blocks through a plan's modules, whose bodies and transfers are worked out once. Modules and entries are counted from 0.
ghost use Rattle.std.specs.Prelude.{◌≡◌, ◌++◌, ◌+◌, ◌≤◌, ◌<◌, length, get_or, drop};
ghost use Rattle.modules.specs.Model.{chain_of};
ghost use Rattle.layout.specs.Layout.{most_modules, modules_from};
ghost use Rattle.timetable.specs.Stages.{stages};
ghost use Rattle.timetable.specs.Timetable.{pass as pass_of, last_of, ends, most_blocks};
ghost use Rattle.timetable.specs.Loops.{stages_in, stage_in, AtMost, most_body, most_send, most_time};

use layout::module_at;
use records::Board;

const MODULES: usize = layout::MOST_MODULES as usize;

// A time for each module, and 0 for the one that is not there after the last.
const TIMES: usize = MODULES + 1;

// The transfer from the i-th of count modules to the next, 0 for the last.
fn send_of(costs: &[u8], board: Board, plan: &[u8], count: u32, i: u32) -> u32
    requires { (i < count) × (count ≤ most_modules) }
    ensures { result ≡ (stage_in (chain_of costs.now board) plan.now count i).send }
{
    if count <= i + 1 {
        return 0;
    }
    let m = module_at(plan, i);
    let to = module_at(plan, i + 1);
    modules::transfer(costs, board, m.last, m.cores, to.cores)
}

// One block through count modules. `through` holds when each was through with the block before, and then with this one. Answers when the
// last is.
fn pass(through: &mut [u64], bodies: &[u64], sends: &[u64], count: usize) -> u64
    requires { (count ≤ most_modules) × (count < length through.old) × (count ≤ length bodies.now) × (count ≤ length sends.now)
        × AtMost most_time through.old × AtMost most_body bodies.now × AtMost most_send sends.now }
    ensures { (through.new ≡ pass_of (get_or through.old 0 0) (stages_in bodies.now sends.now 0 count) through.old ++ drop count through.old)
        × (result ≡ last_of (get_or through.old 0 0) (pass_of (get_or through.old 0 0) (stages_in bodies.now sends.now 0 count) through.old)) }
{
    let mut ready = through[0];
    for i in 0..count {
        let executed = ready + bodies[i];
        let start = executed.max(through[i + 1]);
        ready = start + sends[i];
        through[i] = ready;
    }
    ready
}

// The ends of blocks 1 to n through count modules, at the start of the table.
fn run(bodies: &[u64], sends: &[u64], count: usize, n: usize, table: &mut [u64])
    requires { (count ≤ most_modules) × (count ≤ length bodies.now) × (count ≤ length sends.now) × AtMost most_body bodies.now
        × AtMost most_send sends.now × (n ≤ most_blocks) × (n ≤ length table.old) }
    ensures { table.new ≡ ends (stages_in bodies.now sends.now 0 count) 1 n ++ drop n table.old }
{
    let mut through = [0u64; TIMES];
    for end in &mut table[..n] {
        *end = pass(&mut through, bodies, sends, count);
    }
}

// The ends of blocks 1 to n through the first count records.
pub(crate) fn fill(costs: &[u8], board: Board, plan: &[u8], count: u32, n: usize, table: &mut [u64])
    requires { (count ≤ most_modules) × (n ≤ most_blocks) × (n ≤ length table.old) }
    ensures { table.new ≡ ends (stages (chain_of costs.now board) (modules_from plan.now 0 count)) 1 n ++ drop n table.old }
{
    let mut bodies = [0u64; MODULES];
    let mut sends = [0u64; MODULES];
    for i in 0..count {
        let m = module_at(plan, i);
        bodies[i as usize] = modules::body(costs, board, m.first, m.last, m.cores);
        sends[i as usize] = send_of(costs, board, plan, count, i) as u64;
    }
    run(&bodies, &sends, count as usize, n, table);
}
