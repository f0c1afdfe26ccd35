// Sweeps over the cells: down the chain, so that all rests of plans of the fewest cores are marked, and up again, so that each is weighed
// after those that may come after it.
ghost use Rattle.std.specs.Prelude.{◌≡◌, ◌≤◌, ◌<◌, length};
ghost use Rattle.slack.specs.Problem.{fewest_on};
ghost use Rattle.threshold.specs.Words.{KeptBeyond};
ghost use Rattle.weights.specs.Places.{Tabled};
ghost use Rattle.weights.specs.Scales.{chain_in};
ghost use Rattle.weights.specs.Cells.{Swept, Celled, ClosedTo, Weighed, light_on};

use crate::marks::cell_of;
use crate::scale::Scale;

impl Scale<'_> {
    // Weighs the rest after a module of s cores and task t whose first module has q, if it is marked.
    fn weigh_cell(&self, work: &mut [u32], t: u8, s: u8, q: u8)
        requires { Tabled (chain_in self.now) self.now.board self.now.n work.old × Celled (chain_in self.now) s t q }
        ensures { Swept (chain_in self.now) self.now.n t work.old work.new (λ i j. (i ≡ s) × (j ≡ q)) }
    {
        let i = cell_of(self.board.cores, s, t, q);
        if work[i] == 0 {
            return;
        }
        let x = self.rest_after(work, s, t, q);
        let v = self.over_last(work, x);
        work[i] = v;
    }

    // Those after a module of s cores and task t.
    fn weigh_after(&self, work: &mut [u32], t: u8, s: u8)
        requires { Tabled (chain_in self.now) self.now.board self.now.n work.old × (1 ≤ t) × (t < self.now.board.tasks) × (1 ≤ s) × (s ≤ self.now.board.cores) }
        ensures { Swept (chain_in self.now) self.now.n t work.old work.new (λ i j. i ≡ s) }
    {
        for q in 1..=self.board.cores - s {
            self.weigh_cell(work, t, s, q);
        }
    }

    // Those after task t.
    fn weigh_row(&self, work: &mut [u32], t: u8)
        requires { Tabled (chain_in self.now) self.now.board self.now.n work.old × (1 ≤ t) × (t < self.now.board.tasks) }
        ensures { Swept (chain_in self.now) self.now.n t work.old work.new (λ i j. Unit {0}) }
    {
        for s in 1..self.board.cores {
            self.weigh_after(work, t, s);
        }
    }

    // All, from the first task on: with the first rests every rest of a plan of the fewest cores is marked.
    fn mark_all(&self, work: &mut [u32])
        requires { Tabled (chain_in self.now) self.now.board self.now.n work.old × ClosedTo (chain_in self.now) self.now.n work.old 0 }
        ensures { (length work.new ≡ length work.old) × Tabled (chain_in self.now) self.now.board self.now.n work.new
            × ClosedTo (chain_in self.now) self.now.n work.new self.now.board.tasks × KeptBeyond work.old work.new }
    {
        for t in 1..self.board.tasks {
            self.weigh_row(work, t);
        }
    }

    // All, from the last task up: each by the weights of those after it.
    fn weigh_all(&self, work: &mut [u32])
        requires { Tabled (chain_in self.now) self.now.board self.now.n work.old × ClosedTo (chain_in self.now) self.now.n work.old self.now.board.tasks }
        ensures { (length work.new ≡ length work.old) × Tabled (chain_in self.now) self.now.board self.now.n work.new
            × Weighed (chain_in self.now) self.now.n work.new × KeptBeyond work.old work.new }
    {
        for t in (1..self.board.tasks).rev() {
            self.weigh_row(work, t);
        }
    }

    // The cells of the threshold n, and the least weight of a plan of so many cores within it, the fewest.
    pub(crate) fn weight_within(&self, work: &mut [u32], left: u8) -> u32
        requires { Tabled (chain_in self.now) self.now.board self.now.n work.old × (left ≡ fewest_on (chain_in self.now) self.now.n) × (left ≤ self.now.board.cores) }
        ensures { (result ≡ light_on (chain_in self.now) self.now.n) × (length work.new ≡ length work.old)
            × Tabled (chain_in self.now) self.now.board self.now.n work.new × Weighed (chain_in self.now) self.now.n work.new
            × KeptBeyond work.old work.new }
    {
        self.least_weight(work, left);
        self.mark_all(work);
        self.weigh_all(work);
        self.least_weight(work, left)
    }
}
