// What the rests of plans of the fewest cores weigh: UNIT for each core, and their single-block time (document 02, M-104). A rest is looked
// at where it is marked, and what may come after its first module is marked with it; from the chain's end the weights are right.
ghost use Rattle.std.specs.Prelude.{◌≡◌, cond, ◌&&◌, ◌+◌, ◌-◌, ◌≤◌, ◌<◌, length, get_or, ltb};
ghost use Rattle.modules.specs.Rules.{copies_allowed};
ghost use Rattle.search.specs.Weight.{over_copies, over_next, over_last};
ghost use Rattle.slack.specs.Problem.{problem, sparing_on, fewest_on};
ghost use Rattle.offers.specs.Words.{table_words};
ghost use Rattle.threshold.specs.Words.{execution_at, internal_at, ReachedIn};
ghost use Rattle.weights.specs.Places.{Tabled, Stands};
ghost use Rattle.weights.specs.Scales.{chain_in};
ghost use Rattle.weights.specs.Cells.{Looked, Begun};

use crate::after::Rest;
use crate::grown::Grown;
use crate::loads::{UNIT, no_plan, paid};
use crate::marks::weight_after;
use crate::scale::Scale;
use sketch::SIDE;
use threshold::{EXECUTIONS, INTERNALS, REACHES};

impl Grown<'_> {
    // The least over the copies of the module before one of q2 cores.
    fn over_copies(&self, work: &mut [u32], q2: u8) -> u32
        requires { Tabled (chain_in self.now.scale) self.now.scale.board self.now.scale.n work.old × (q2 ≤ self.now.scale.board.cores) }
        ensures { Looked (chain_in self.now.scale) self.now.scale.n self.now.rest.before self.now.rest.from self.now.rest.cores
            work.old work.new (λ i j. (i ≡ self.now.last) × (j ≡ q2)) result
            (λ R. over_copies (problem (chain_in self.now.scale)) (sparing_on (chain_in self.now.scale) self.now.scale.n) R
            self.now.rest.before self.now.rest.from self.now.rest.cores self.now.last q2) }
    {
        let x = self.rest;
        let none = no_plan(self.scale.board.cores);
        let Some(copies) = self.copies_to(work, q2) else {
            return none;
        };
        let r = copies as u64;
        let sent = self.sent_to(q2) as u64;
        let ticks = self.stay + sent + paid(self.out, r);
        let own = (UNIT as u64) * (r * (x.cores as u64)) + ticks;
        let rest = weight_after(work, self.scale.board, x.cores, self.last, q2) as u64;
        (none as u64).min(own + rest) as u32
    }

    // And over the cores of the module after it.
    fn over_next(&self, work: &mut [u32]) -> u32
        requires { Tabled (chain_in self.now.scale) self.now.scale.board self.now.scale.n work.old }
        ensures { Looked (chain_in self.now.scale) self.now.scale.n self.now.rest.before self.now.rest.from self.now.rest.cores
            work.old work.new (λ i j. i ≡ self.now.last) result
            (λ R. over_next (problem (chain_in self.now.scale)) (sparing_on (chain_in self.now.scale) self.now.scale.n) R
            self.now.rest.before self.now.rest.from self.now.rest.cores self.now.last) }
    {
        if self.last == self.scale.board.tasks {
            return self.over_copies(work, 0);
        }
        let mut m = no_plan(self.scale.board.cores);
        for i in 1..=self.rest.left - self.rest.cores {
            let v = self.over_copies(work, i);
            m = m.min(v);
        }
        m
    }
}

// The body of a module of q cores from task t + 1 to l + 1, which ends within its reach (document 02, M-102), by that up to task l.
fn longer(work: &[u32], t: u8, l: u8, q: u8, stay: u64) -> u64
    requires { (table_words ≤ length work.now) × (t ≤ l) × (l < 12) × (q ≤ 32) × (stay < 1099511627776) × ReachedIn work.now t (l + 1) q }
    ensures { (result ≡ stay + cond (ltb t l) (get_or work.now (internal_at (l - 1) q) 0) 0 + get_or work.now (execution_at l q) 0)
        × (result < stay + 8589934592) }
{
    let i = (l as usize) * SIDE + (q as usize);
    let sum = stay + (work[EXECUTIONS + i] as u64);
    if t < l {
        return sum + (work[INTERNALS + i - SIDE] as u64);
    }
    sum
}

impl Scale<'_> {
    // Whether a module that may have copies may have them with task l too.
    fn still_free(&self, l: u8, rep: bool) -> bool
        ensures { result ≡ (rep && copies_allowed (chain_in self.now) l l 2) }
    {
        rep && modules::copies_allowed(self.costs, self.board, l, l, 2)
    }

    // And over its last task, up to the last with which one copy keeps the rules: what the rest x weighs.
    pub(crate) fn over_last(&self, work: &mut [u32], x: Rest) -> u32
        requires { Tabled (chain_in self.now) self.now.board self.now.n work.old × Stands (chain_in self.now) self.now.n x }
        ensures { Looked (chain_in self.now) self.now.n x.before x.from x.cores work.old work.new (λ i j. Unit {0}) result
            (λ R. over_last (problem (chain_in self.now)) (sparing_on (chain_in self.now) self.now.n) R x.before x.from x.cores) }
    {
        let mut m = no_plan(self.board.cores);
        if x.left < x.cores {
            return m;
        }
        let out = modules::handed(self.costs, self.board, 2) as u64;
        let i = (x.from as usize) * SIDE + (x.cores as usize);
        let end = work[REACHES + i] as u8;
        let mut stay: u64 = 0;
        let mut rep = true;
        for l in x.from..end {
            let last = l + 1;
            stay = longer(work, x.from, l, x.cores, stay);
            rep = self.still_free(last, rep);
            let module = Grown {
                scale: *self,
                rest: x,
                last,
                base: (x.received as u64) + stay,
                stay,
                out,
                rep,
            };
            let v = module.over_next(work);
            m = m.min(v);
        }
        m
    }

    // What a plan of so many cores, the fewest, weighs at least that starts with a module of q, by what the cells say. Without a slack there is none.
    fn start_weight(&self, work: &mut [u32], left: u8, q: u8) -> u32
        requires { Tabled (chain_in self.now) self.now.board self.now.n work.old × (left ≡ fewest_on (chain_in self.now) self.now.n) × (left ≤ self.now.board.cores) × (1 ≤ q) × (q ≤ left) }
        ensures { Looked (chain_in self.now) self.now.n 0 0 q work.old work.new (λ i j. Unit {0}) result
            (λ R. over_last (problem (chain_in self.now)) (sparing_on (chain_in self.now) self.now.n) R 0 0 q) }
    {
        if work[(q as usize) * SIDE + (left as usize)] == 0 {
            return no_plan(self.board.cores);
        }
        let x = Rest {
            before: 0,
            from: 0,
            cores: q,
            received: 0,
            left,
        };
        self.over_last(work, x)
    }

    // The least weight of a plan that has so many cores, the fewest, by what the cells say.
    pub(crate) fn least_weight(&self, work: &mut [u32], left: u8) -> u32
        requires { Tabled (chain_in self.now) self.now.board self.now.n work.old × (left ≡ fewest_on (chain_in self.now) self.now.n) × (left ≤ self.now.board.cores) }
        ensures { Begun (chain_in self.now) self.now.n work.old work.new (self.now.board.cores + 1) result }
    {
        let mut m = no_plan(self.board.cores);
        for q in 1..=left {
            let v = self.start_weight(work, left, q);
            m = m.min(v);
        }
        m
    }
}
