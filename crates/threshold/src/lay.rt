// What all thresholds share, laid once a search: each task's times, and how far a module of one copy can go.
ghost use Rattle.std.specs.Prelude.{◌≡◌, ◌+◌, ◌≤◌, ◌<◌, length};
ghost use Rattle.offers.specs.Words.{Area};
ghost use Rattle.threshold.specs.Docks.{chain};
ghost use Rattle.threshold.specs.Words.{KeptBeyond, Longest, LaidTo, Laid, LaidOnly};

use crate::dock::Dock;
use crate::words::{EXECUTIONS, INTERNALS, REACHES};
use sketch::SIDE;

impl Dock<'_> {
    // The last task of the longest module of one copy of q cores from task t + 1 on that keeps the rules; t where there is none, as `Longest` has it. The shares
    // of its memory (document 02, M-103) are added up as it grows.
    fn longest(&self, t: u8, q: u8) -> u8
        requires { (1 ≤ q) × (t ≤ self.now.board.tasks) }
        ensures { Longest (chain self.now) t q result }
    {
        let mut sum: u64 = 0;
        for end in t..self.board.tasks {
            let last = end + 1;
            let added = modules::share(self.costs, self.board, last, q);
            sum += added;
            if !modules::still_kept(self.costs, self.board, last, q, sum) {
                return end;
            }
        }
        self.board.tasks
    }

    // The words of the task t + 1 at q cores.
    fn lay_task(&self, work: &mut [u32], t: u8, q: u8)
        requires { Area self.now.board work.old × (t < self.now.board.tasks) × (1 ≤ q) × (q ≤ self.now.board.cores) }
        ensures { LaidOnly (chain self.now) work.old work.new t q }
    {
        let task = t + 1;
        let i = (t as usize) * SIDE + (q as usize);
        let own = held::execution(self.costs, self.board, task, q);
        let between = held::internal(self.costs, self.board, task, q);
        let end = self.longest(t, q) as u32;
        work[EXECUTIONS + i] = own;
        work[INTERNALS + i] = between;
        work[REACHES + i] = end;
    }

    // The words of the task t + 1 at all cores of the board.
    fn lay_cores(&self, work: &mut [u32], t: u8)
        requires { Area self.now.board work.old × (t < self.now.board.tasks) × LaidTo (chain self.now) work.old t }
        ensures { (length work.new ≡ length work.old) × LaidTo (chain self.now) work.new (t + 1)
            × KeptBeyond work.old work.new }
    {
        for q in 1..=self.board.cores {
            self.lay_task(work, t, q);
        }
    }

    // The words of all tasks.
    pub(crate) fn lay(&self, work: &mut [u32])
        requires { Area self.now.board work.old }
        ensures { (length work.new ≡ length work.old) × Laid (chain self.now) work.new
            × KeptBeyond work.old work.new }
    {
        for t in 0..self.board.tasks {
            self.lay_cores(work, t);
        }
    }
}
