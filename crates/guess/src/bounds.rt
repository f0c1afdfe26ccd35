// The thresholds of modules by themselves: where a search starts.
ghost use Rattle.std.specs.Prelude.{◌≡◌, ◌+◌, ◌≤◌, ◌<◌};
ghost use Rattle.modules.specs.Model.{chain_of};
ghost use Rattle.modules.specs.Reach.{reach};
ghost use Rattle.slack.specs.Problem.{top_threshold};
ghost use Rattle.guess.specs.Guess.{threshold_of};

use crate::{GRAIN, Hunt, TOP, TOP_RESPONSE};
use modules::Module;
use records::Board;

// The least threshold that a response of so many copies is within; TOP + 1 where it is within none up to TOP, or there is no copy. The ticks for
// each copy, whole and rest, are taken apart, so that no product is above 64 bits.
pub fn threshold_of(response: u64, copies: u32) -> u64
    ensures { result ≡ threshold_of response copies }
{
    let several = u64::from(copies);
    if several < 1 || TOP_RESPONSE * several < response {
        return TOP + 1;
    }
    let whole = response / several;
    let rest = response % several;
    whole * GRAIN + (rest * GRAIN).div_ceil(several)
}

// The costs of a dock with its board, whatever they are.
#[derive(Clone, Copy)]
struct Dock<'a> {
    costs: &'a [u8],
    board: Board,
}

// Some tasks of a board in a row, those of a module.
#[derive(Clone, Copy)]
struct Run<'a> {
    dock: Dock<'a>,
    first: u8,
    last: u8,
    ghost from_first: { 1 ≤ first },
    ghost in_order: { first ≤ last },
    ghost last_most: { last ≤ dock.board.tasks },
}

impl Run<'_> {
    // As many copies of q cores as the module may have on the board.
    fn copies(&self, q: u8) -> u8
        requires { 1 ≤ q }
    {
        if modules::copies_allowed(self.dock.costs, self.dock.board, self.first, self.last, 2) {
            return self.dock.board.cores / q;
        }
        1
    }

    // The threshold of the module of q cores by itself, in as many copies as the board has room for; TOP + 1 where it breaks a rule.
    fn alone(&self, q: u8) -> u64
        requires { (1 ≤ q) × (q ≤ self.now.dock.board.cores) }
    {
        let Dock { costs, board } = self.dock;
        if !modules::rules_met(costs, board, self.first, self.last, 1, q) {
            return TOP + 1;
        }
        let copies = self.copies(q);
        let m = Module {
            first: self.first,
            last: self.last,
            copies,
            cores: q,
        };
        threshold_of(self.dock.response_alone(m), u32::from(copies))
    }

    // The least threshold of the module by itself, over all cores.
    fn least_alone(&self) -> u64
        ensures { result ≤ top_threshold + 1 }
    {
        // Named, since the check does not find the bounds of a field that lies deeper.
        let cores = self.dock.board.cores;
        let mut least = TOP + 1;
        for q in 1..=cores {
            least = least.min(self.alone(q));
        }
        least
    }
}

impl Dock<'_> {
    // The response of a module by itself, which ends within its reach (document 02, M-102).
    fn response_alone(&self, m: Module) -> u64
        requires { m.last ≤ reach (chain_of self.now.costs.now self.now.board) m.first }
    {
        modules::response_of(self.costs, self.board, 0, m, 0)
    }

    // The least core-ticks of a task.
    fn area(&self, t: u8) -> u64
        ensures { result < 4294967296 }
    {
        let mut least = u64::from(u32::MAX);
        for q in 1..=self.board.cores {
            let own = u64::from(held::execution(self.costs, self.board, t, q)) * u64::from(q);
            least = least.min(own);
        }
        least
    }

    // What no plan, most likely, is below: the work spread over all cores, and each task by itself.
    fn bound(&self) -> u64 {
        if self.board.cores < 1 {
            return TOP + 1;
        }
        let mut most: u64 = 0;
        let mut sum: u64 = 0;
        for t in 1..=self.board.tasks {
            let task = Run {
                dock: *self,
                first: t,
                last: t,
            };
            most = most.max(task.least_alone());
            sum += self.area(t);
        }
        most.max(sum * GRAIN / u64::from(self.board.cores))
    }

    // The threshold of the best plan of one module; TOP + 1 where there is none.
    fn single(&self) -> u64 {
        if self.board.tasks < 1 {
            return TOP + 1;
        }
        let whole = Run {
            dock: *self,
            first: 1,
            last: self.board.tasks,
        };
        whole.least_alone()
    }
}

// The search before its first try.
pub fn start(costs: &[u8], board: Board) -> Hunt
    ensures { (result.lo ≡ 0) × (result.hi ≡ top_threshold + 1) }
{
    let dock = Dock { costs, board };
    Hunt {
        lo: 0,
        hi: TOP + 1,
        bound: dock.bound(),
        single: dock.single(),
        cores: 0,
        misses: 0,
        finds: 0,
    }
}
