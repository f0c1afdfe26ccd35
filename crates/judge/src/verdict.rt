// Judge: costs and plan bytes; the first refusal that is due, or the plan's figures.
ghost use Rattle.std.specs.Prelude.{◌≡◌, ◌-◌, ◌≤◌};
ghost use Rattle.modules.specs.Model.{chain_of};
ghost use Rattle.layout.specs.Layout.{most_modules, modules_of};
ghost use Rattle.judge.specs.Judge.{is_blank, is_module, blank_fault, shape_fault, first_failing, limit_test, at_place, rule_test, judged_plan, judged_bytes, judged};

use figures::{PlanFigures, cores_used};
use layout::{MOST_MODULES, PLAN_BYTES, module_at, module_count};
use modules::{Module, copies_allowed, memory_fits, within_limit};
use records::{Board, Refusal};

// What a module has to keep by itself: a test over all modules of a plan for each.
#[derive(Clone, Copy)]
enum Rule {
    Copies,
    Memory,
    Limit,
}

// Whether a record is all 0.
fn is_blank(m: Module) -> bool
    ensures { result ≡ is_blank m }
{
    if m.first != 0 {
        return false;
    }
    if m.last != 0 {
        return false;
    }
    if m.copies != 0 {
        return false;
    }
    m.cores == 0
}

// Whether a record is a module that starts with the due task and ends at k or before.
fn is_module(k: u8, due: u32, m: Module) -> bool
    ensures { result ≡ is_module k due m }
{
    if (m.first as u32) != due {
        return false;
    }
    if m.last < m.first {
        return false;
    }
    if k < m.last {
        return false;
    }
    if m.copies < 1 {
        return false;
    }
    1 <= m.cores
}

// The first record from the i-th on that is not all 0, counted from 1.
fn blank_fault(plan: &[u8], from: u32) -> Option<u32>
    requires { from ≤ most_modules }
    ensures { result ≡ at_place (blank_fault plan.now from (most_modules - from)) }
{
    for i in from..MOST_MODULES {
        let m = module_at(plan, i);
        if !is_blank(m) {
            return Some(i + 1);
        }
    }
    None
}

// Refusal 12's place: the first of the twelve records at fault, counted from 1.
fn shape_fault(plan: &[u8], k: u8) -> Option<u32>
    ensures { result ≡ at_place (shape_fault k plan.now 1 0 most_modules) }
{
    let mut due: u32 = 1;
    for i in 0..MOST_MODULES {
        let m = module_at(plan, i);
        if !is_module(k, due, m) {
            return Some(i + 1);
        }
        if m.last == k {
            return blank_fault(plan, i + 1);
        }
        due = (m.last as u32) + 1;
    }
    Some(MOST_MODULES + 1)
}

// Whether the module keeps the rule.
fn keeps_rule(costs: &[u8], board: Board, rule: Rule, m: Module) -> bool
    ensures { result ≡ rule_test (chain_of costs.now board) rule m }
{
    match rule {
        Rule::Copies => copies_allowed(costs, board, m.first, m.last, m.copies),
        Rule::Memory => memory_fits(costs, board, m.first, m.last, m.cores),
        Rule::Limit => within_limit(costs, board, m.first, m.last, m.cores),
    }
}

// The first module of the plan that breaks the rule, counted from 1.
fn rule_fault(costs: &[u8], board: Board, plan: &[u8], rule: Rule) -> Option<u32>
    ensures { result ≡ at_place (first_failing (rule_test (chain_of costs.now board) rule) 1 (modules_of plan.now board.tasks)) }
{
    let count = module_count(plan, board.tasks);
    for i in 0..count {
        let m = module_at(plan, i);
        if !keeps_rule(costs, board, rule, m) {
            return Some(i + 1);
        }
    }
    None
}

// The place of refusal 16 (document 02, M-100): the first module of the plan that is over its limit, counted from 1.
pub fn limit_fault(costs: &[u8], board: Board, plan: &[u8]) -> Option<u32>
    ensures { result ≡ at_place (first_failing (limit_test (chain_of costs.now board)) 1 (modules_of plan.now board.tasks)) }
{
    rule_fault(costs, board, plan, Rule::Limit)
}

// The tests of a plan of the right shape, each over all modules before the next: refusals 13, 14, 16 and 15, then the figures.
fn judge_plan(costs: &[u8], board: Board, plan: &[u8]) -> Result<PlanFigures, Refusal>
    ensures { result ≡ judged_plan (chain_of costs.now board) (modules_of plan.now board.tasks) }
{
    if let Some(copies) = rule_fault(costs, board, plan, Rule::Copies) {
        return Err(Refusal::NoCopies(copies));
    }
    if let Some(memory) = rule_fault(costs, board, plan, Rule::Memory) {
        return Err(Refusal::OverMemory(memory));
    }
    if let Some(limit) = limit_fault(costs, board, plan) {
        return Err(Refusal::AboveLimit(limit));
    }
    let cores = cores_used(plan, board.tasks);
    if (board.cores as u32) < cores {
        return Err(Refusal::OverCores);
    }
    Ok(figures::figures(costs, board, plan))
}

// Judge on costs that were read before, for every slice and board: refusals 7 and 12 to 16, or the figures.
pub fn judge_bytes(costs: &[u8], board: Board, plan: &[u8]) -> Result<PlanFigures, Refusal>
    ensures { result ≡ judged_bytes (chain_of costs.now board) plan.now }
{
    if plan.len() < PLAN_BYTES {
        return Err(Refusal::ShortPlan);
    }
    if let Some(shape) = shape_fault(plan, board.tasks) {
        return Err(Refusal::BadShape(shape));
    }
    judge_plan(costs, board, plan)
}

// Document 01's Judge: the figures of a plan that keeps every rule, or the refusal that is due.
pub fn judge(costs: &[u8], plan: &[u8]) -> Result<PlanFigures, Refusal>
    ensures { result ≡ judged costs.now plan.now }
{
    let board = records::read(costs)?;
    judge_bytes(costs, board, plan)
}
