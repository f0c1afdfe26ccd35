// Document 01's Best plan: least bottleneck, then fewest cores, then least single-block time (document 02, M-104), then module order.
ghost use Rattle.std.specs.Prelude.{◌≡◌, ◌≤◌, length, replicate};
ghost use Rattle.records.specs.Format.{IsCosts};
ghost use Rattle.modules.specs.Model.{chain_of};
ghost use Rattle.layout.specs.Layout.{plan_bytes, modules_of};
ghost use Rattle.figures.specs.Plan.{figures_of};
ghost use Rattle.planners.specs.Best.{work_words, best_plan, found_answer, found_bytes, best_answer, best_bytes, best_work};
ghost use Rattle.planners.specs.Reached.{AllReached};

use figures::PlanFigures;
use layout::{PLAN_BYTES, put_plan};
use records::{Board, Refusal};
use walk::first_plan;

const WORK_WORDS: usize = 16384;

// The figures of a plan whose modules all end within their reach (document 02, M-102).
fn figures_of(costs: &[u8], board: Board, plan: [u8; PLAN_BYTES]) -> PlanFigures
    requires { AllReached (chain_of costs.now board) (modules_of plan board.tasks) }
    ensures { result ≡ figures_of (chain_of costs.now board) (modules_of plan board.tasks) }
{
    figures::figures(costs, board, &plan)
}

// The search on accepted costs: the plan's figures, or refusal 9. The work area holds the tables.
fn search(
    costs: &[u8],
    board: Board,
    plan: &mut [u8],
    work: &mut [u32],
) -> Result<PlanFigures, Refusal>
    requires { IsCosts costs.now board × (plan_bytes ≤ length plan.old) × (work_words ≤ length work.old) }
    ensures { (result ≡ found_answer (chain_of costs.now board) (best_plan (chain_of costs.now board)))
        × (plan.new ≡ found_bytes (best_plan (chain_of costs.now board)) plan.old)
        × (length work.new ≡ length work.old) }
{
    let Some(path) = first_plan(costs, board, work) else {
        return Err(Refusal::NoPlan);
    };
    put_plan(path, plan);
    Ok(figures_of(costs, board, path))
}

// All words become 0.
fn zero(work: &mut [u32])
    ensures { work.new ≡ replicate (length work.old) 0 }
{
    work.fill(0);
}

// Fills in the plan that comes before all others that keep the rules, or refuses. Afterwards the whole work area is zero, or
// untouched where no search has begun.
pub fn best_plan(costs: &[u8], plan: &mut [u8], work: &mut [u32]) -> Result<PlanFigures, Refusal>
    ensures { (result ≡ best_answer costs.now plan.old work.old)
        × (plan.new ≡ best_bytes costs.now plan.old work.old)
        × (work.new ≡ best_work costs.now plan.old work.old) }
{
    let board = records::read(costs)?;
    if plan.len() < PLAN_BYTES {
        return Err(Refusal::ShortPlan);
    }
    if work.len() < WORK_WORDS {
        return Err(Refusal::ShortWork);
    }
    let answer = search(costs, board, plan, work);
    zero(work);
    answer
}
