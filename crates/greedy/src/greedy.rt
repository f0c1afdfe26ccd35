// Document 01's "Bench way": the greedy procedure of 000, 4.1, within the limits of document 02, M-100. An assignment is held as plan
// bytes, all r being 1.
ghost use Rattle.std.specs.Prelude.{◌≡◌, [], ◌+◌, ◌-◌, ◌*◌, ◌^◌, ◌≤◌, ◌<◌, length, get_or, set, IfSome};
ghost use Rattle.layout.specs.Layout.{plan_bytes, modules_of, encode_plan};
ghost use Rattle.figures.specs.Model.{cores_of};
ghost use Rattle.greedy.specs.Greedy.{start, time, may_take, consider as considering, next, greedy_from, greedy_on, greedy_bytes_on, greedy_answer, greedy_bytes};
ghost use Rattle.greedy.specs.Assignment.{last_of, Assigned, Assigned-prop, choice_of, Chosen};

use figures::PlanFigures;
use judge::limit_fault;
use layout::{PLAN_BYTES, put_plan};
use modules::Module;
use records::{Board, Refusal};

// The costs of a dock with its board, whose numbers are in their ranges.
#[derive(Clone, Copy)]
struct Dock<'a> {
    costs: &'a [u8],
    board: Board,
    ghost some_tasks: { 1 ≤ board.tasks },
    ghost tasks_most: { board.tasks ≤ 12 },
    ghost cores_most: { board.cores ≤ 32 },
}

// An assignment on a dock, of so few cores that each module's byte holds one more.
#[derive(Clone, Copy)]
struct Assignment<'a> {
    dock: Dock<'a>,
    plan: [u8; PLAN_BYTES],
    ghost assigned: { Assigned dock.board.tasks plan } by { Assigned-prop dock.board.tasks plan },
    ghost few: { cores_of (modules_of plan dock.board.tasks) < 255 },
}

// A candidate for one core more: its bottleneck and its assignment.
#[derive(Clone, Copy)]
pub(crate) struct Choice {
    pub time: u64,
    pub plan: [u8; PLAN_BYTES],
}

// The last task of the module that begins with task first: that of the lowest bit that is set, those of the tasks before it shifted out.
fn group_last(grouping: u16, first: u8, k: u8) -> u8
    requires { (1 ≤ first) × (first ≤ k) × (k ≤ 16) }
    ensures { (result ≡ last_of grouping first (k - first)) × (first ≤ result) × (result ≤ k) }
{
    let rest = grouping >> (first - 1);
    let goes_on = rest.trailing_zeros() as u8;
    k.min(first + goes_on)
}

// The assignment with one core more for the i-th module.
fn give(plan: [u8; PLAN_BYTES], i: u32) -> [u8; PLAN_BYTES]
    requires { (i < 12) × (get_or plan (4 * i + 3) 0 < 255) }
    ensures { result ≡ set plan (4 * i + 3) (get_or plan (4 * i + 3) 0 + 1) }
{
    let mut given = plan;
    given[4 * i as usize + 3] += 1;
    given
}

// One more than the greatest grouping of k tasks.
fn groupings(k: u8) -> u32
    requires { (1 ≤ k) × (k ≤ 12) }
    ensures { result ≡ 2 ^ (k - 1) }
{
    1 << (k - 1)
}

impl<'a> Assignment<'a> {
    ghost use Rattle.greedy.specs.Docks.{chain, modules};

    // Whether there is an i-th module and it is not at its limit.
    fn may_take(self, i: u32) -> bool
        ensures { result ≡ may_take (chain self.entry.dock) (modules self.entry) i }
    {
        let count = layout::module_count(&self.plan, self.dock.board.tasks);
        if count <= i {
            return false;
        }
        let m = layout::module_at(&self.plan, i);
        modules::within_limit(
            self.dock.costs,
            self.dock.board,
            m.first,
            m.last,
            m.cores + 1,
        )
    }

    // The candidate i, where it may take a core, against the best so far.
    fn consider(self, best: Option<Choice>, i: u32) -> Option<Choice>
        requires { IfSome best (Chosen (chain self.dock) (modules self)) }
        ensures { IfSome result (Chosen (chain self.entry.dock) (modules self.entry))
            × (choice_of self.entry.dock.board.tasks result ≡ considering (chain self.entry.dock) (modules self.entry) (choice_of self.entry.dock.board.tasks best) i) }
    {
        if !self.may_take(i) {
            return best;
        }
        let given = give(self.plan, i);
        let time = self.dock.time_of(given);
        if let Some(earlier) = best {
            if earlier.time <= time {
                return best;
            }
        }
        Some(Choice { time, plan: given })
    }

    // Step 3: one core more for the first slowest module, its predecessor or its successor, by which gives the least bottleneck.
    fn next_of(self) -> Option<Choice>
        ensures { IfSome result (Chosen (chain self.entry.dock) (modules self.entry))
            × (choice_of self.entry.dock.board.tasks result ≡ next (chain self.entry.dock) (modules self.entry)) }
    {
        let f = figures::figures(self.dock.costs, self.dock.board, &self.plan);
        let i = f.slowest - 1;
        let before = if 0 < i { i - 1 } else { f.modules };
        let own = self.consider(None, i);
        let left = self.consider(own, before);
        self.consider(left, i + 1)
    }
}

impl<'a> Dock<'a> {
    ghost use Rattle.greedy.specs.Docks.{chain};

    // Step 1: fills blank plan bytes with the groups, each with the fewest cores that its memory allows; the sum of these.
    fn put_start(self, grouping: u16, plan: &mut [u8]) -> u32
        requires { plan.old ≡ encode_plan [] }
        ensures { (result ≡ cores_of (start (chain self.entry) grouping)) × (plan.new ≡ encode_plan (start (chain self.entry) grouping)) }
    {
        let k = self.board.tasks;
        let mut sum: u32 = 0;
        let mut i: u32 = 0;
        let mut first: u8 = 1;
        // No index loop: each turn goes on behind the module that it has put.
        while first <= k {
            let last = group_last(grouping, first, k);
            let fewest = modules::fewest_cores(self.costs, self.board, first, last);
            let m = Module {
                first,
                last,
                copies: 1,
                cores: fewest as u8,
            };
            layout::put_module(plan, i, m);
            sum += fewest;
            i += 1;
            first = last + 1;
        }
        sum
    }

    // The bottleneck of an assignment.
    fn time_of(self, plan: [u8; PLAN_BYTES]) -> u64
        ensures { result ≡ time (chain self.entry) (modules_of plan self.entry.board.tasks) }
    {
        figures::figures(self.costs, self.board, &plan).response
    }

    // Steps 2 to 4: the earliest assignment of least bottleneck on the way from the start, while a core is left.
    fn walk(self, from: [u8; PLAN_BYTES], left: u32) -> [u8; PLAN_BYTES]
        requires { Assigned self.board.tasks from × (cores_of (modules_of from self.board.tasks) + left ≤ 32) }
        ensures { result ≡ encode_plan (greedy_from (chain self.entry) left (modules_of from self.entry.board.tasks) (modules_of from self.entry.board.tasks)) }
    {
        let mut latest = from;
        let mut best = from;
        let mut time = self.time_of(from);
        for _ in 0..left {
            let Some(choice) = (Assignment {
                dock: self,
                plan: latest,
            })
            .next_of() else {
                return best;
            };
            latest = choice.plan;
            if choice.time < time {
                best = choice.plan;
                time = choice.time;
            }
        }
        best
    }

    // The procedure on an accepted board: refusals 10 and 11, then the plan.
    fn greedy_on(self, grouping: u16, plan: &mut [u8]) -> Result<PlanFigures, Refusal>
        requires { plan_bytes ≤ length plan.old }
        ensures { (result ≡ greedy_on (chain self.entry) grouping)
            × (plan.new ≡ greedy_bytes_on (chain self.entry) grouping plan.old) }
    {
        if groupings(self.board.tasks) <= (grouping as u32) {
            return Err(Refusal::NoGrouping);
        }
        let mut from = [0u8; PLAN_BYTES];
        let cores = self.put_start(grouping, &mut from);
        let total = self.board.cores as u32;
        if total < cores {
            return Err(Refusal::NoStart);
        }
        if limit_fault(self.costs, self.board, &from).is_some() {
            return Err(Refusal::NoStart);
        }
        let best = self.walk(from, total - cores);
        put_plan(best, plan);
        Ok(figures::figures(self.costs, self.board, &best))
    }
}

// Document 01's "Bench way": the plan of the greedy procedure for the grouping, or the refusal that is due.
pub fn greedy_plan(costs: &[u8], grouping: u16, plan: &mut [u8]) -> Result<PlanFigures, Refusal>
    ensures { (result ≡ greedy_answer costs.now grouping plan.old)
        × (plan.new ≡ greedy_bytes costs.now grouping plan.old) }
{
    let board = records::read(costs)?;
    if plan.len() < PLAN_BYTES {
        return Err(Refusal::ShortPlan);
    }
    Dock { costs, board }.greedy_on(grouping, plan)
}
