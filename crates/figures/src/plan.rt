// What plan bytes say and cost. Modules are counted from 0 here, but for the number of the slowest one.
ghost use Rattle.std.specs.Prelude.{◌≡◌, cond, ◌+◌, ◌-◌, ◌≤◌, ◌<◌, ltb};
ghost use Rattle.modules.specs.Model.{chain_of};
ghost use Rattle.layout.specs.Layout.{most_modules, module_at, modules_from, modules_of};
ghost use Rattle.figures.specs.Model.{cores_of, slower_of, bottleneck, block_time};
ghost use Rattle.figures.specs.Plan.{cores_before, slowness_at, figures_of, response_at};

use crate::{PlanFigures, Slowest};
use layout::{module_at, module_count};
use modules::{passage, response_of};
use records::Board;

// The cores of a copy of the module before the i-th, 0 for the first: 0 cores are "no neighbour" wherever a response is defined.
fn cores_before(plan: &[u8], i: u32) -> u8
    requires { i ≤ most_modules }
    ensures { result ≡ cores_before plan.now i }
{
    if i == 0 {
        0
    } else {
        module_at(plan, i - 1).cores
    }
}

// The cores of a copy of the i-th of count modules, 0 where there is none.
fn cores_at(plan: &[u8], count: u32, i: u32) -> u8
    requires { count ≤ most_modules }
    ensures { result ≡ cond (ltb i count) (module_at plan.now i).cores 0 }
{
    if i < count {
        module_at(plan, i).cores
    } else {
        0
    }
}

// The i-th of count modules, with its response.
fn slowness(costs: &[u8], board: Board, plan: &[u8], count: u32, i: u32) -> Slowest
    requires { (i < count) × (count ≤ most_modules) }
    ensures { (result ≡ slowness_at (chain_of costs.now board) plan.now count i) × (result.response < 8796093022208) × (result.copies < 256) }
{
    let m = module_at(plan, i);
    let s = cores_before(plan, i);
    let q = cores_at(plan, count, i + 1);
    Slowest {
        number: i + 1,
        response: response_of(costs, board, s, m, q),
        copies: m.copies as u32,
    }
}

// The slower of two modules, the first where they are equal.
fn slower(x: Slowest, y: Slowest) -> Slowest
    requires { (x.response < 8796093022208) × (x.copies < 256) × (y.response < 8796093022208) × (y.copies < 256) }
    ensures { result ≡ slower_of x y }
{
    let left = x.response * (y.copies as u64);
    let right = y.response * (x.copies as u64);
    if left < right { y } else { x }
}

// The bottleneck of the first count records.
fn slowest_of(costs: &[u8], board: Board, plan: &[u8], count: u32) -> Slowest
    requires { count ≤ most_modules }
    ensures { result ≡ bottleneck (chain_of costs.now board) (modules_from plan.now 0 count) }
{
    // Zeros where there is no module, as the definition `bottleneck` has them and `Answer` shows them to C.
    if count == 0 {
        return Slowest::default();
    }
    let mut x = slowness(costs, board, plan, count, 0);
    for i in 1..count {
        let y = slowness(costs, board, plan, count, i);
        x = slower(x, y);
    }
    x
}

// The cores of the first count records.
fn cores_of(plan: &[u8], count: u32) -> u32
    requires { count ≤ most_modules }
    ensures { result ≡ cores_of (modules_from plan.now 0 count) }
{
    let mut sum: u32 = 0;
    for i in 0..count {
        let m = module_at(plan, i);
        sum += (m.copies as u32) * (m.cores as u32);
    }
    sum
}

// The cores of plan bytes.
pub fn cores_used(plan: &[u8], k: u8) -> u32
    ensures { result ≡ cores_of (modules_of plan.now k) }
{
    let count = module_count(plan, k);
    cores_of(plan, count)
}

// The figures of plan bytes: document 01's count of modules, cores and bottleneck.
pub fn figures(costs: &[u8], board: Board, plan: &[u8]) -> PlanFigures
    ensures { result ≡ figures_of (chain_of costs.now board) (modules_of plan.now board.tasks) }
{
    let count = module_count(plan, board.tasks);
    let x = slowest_of(costs, board, plan, count);
    PlanFigures {
        modules: count,
        cores: cores_of(plan, count),
        slowest: x.number,
        copies: x.copies,
        response: x.response,
    }
}

// The response of the i-th module, in ticks; 0 where there is none, as `response_at` has it.
pub fn response(costs: &[u8], board: Board, plan: &[u8], i: u32) -> u64
    ensures { result ≡ response_at (chain_of costs.now board) (modules_of plan.now board.tasks) i }
{
    let count = module_count(plan, board.tasks);
    if i < count {
        slowness(costs, board, plan, count, i).response
    } else {
        0
    }
}

// The single-block time of plan bytes (document 02, M-104), in ticks.
pub fn block_time(costs: &[u8], board: Board, plan: &[u8]) -> u64
    ensures { result ≡ block_time (chain_of costs.now board) (modules_of plan.now board.tasks) }
{
    let count = module_count(plan, board.tasks);
    let mut sum: u64 = 0;
    for i in 0..count {
        let m = module_at(plan, i);
        let next = cores_at(plan, count, i + 1);
        sum += passage(costs, board, m, next);
    }
    sum
}
