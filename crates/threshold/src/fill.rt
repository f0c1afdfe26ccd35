// The slack table of a threshold, filled from the chain's last task: what modules that end with a task leave is pushed to all rests that
// can start with them.
ghost use Rattle.std.specs.Prelude.{◌≡◌, cond, ◌+◌, ◌-◌, ◌*◌, ◌≤◌, ◌<◌, min, length, get_or, ltb, leb};
ghost use Rattle.modules.specs.Model.{handed};
ghost use Rattle.slack.specs.Problem.{none, top_threshold, one_on, any_on};
ghost use Rattle.offers.specs.Words.{table_words, Area, RowFilled, LeastRest, NoneLeft};
ghost use Rattle.threshold.specs.Docks.{chain};
ghost use Rattle.threshold.specs.Words.{execution_at, internal_at, KeptBeyond, Laid, ReachedIn, Fixed, AllFilled, FilledAfter, Raised, OneNoMore, Pushed, PushedAll, Cleared, NoSlacks};

use crate::dock::Dock;
use crate::words::{EXECUTIONS, INTERNALS, REACHES};
use offers::{NONE, PLACES, first_above, least_rest, left_from};
use sketch::{SIDE, SQUARE};

// What the modules that end with the task l share at the threshold n: what several copies take more (document 02, M-106), the last task up
// to l that is not replicable, and a number of cores below which no rest after l has a slack.
#[derive(Clone, Copy)]
struct Ending<'a> {
    dock: Dock<'a>,
    n: u64,
    l: u8,
    extra: u32,
    fixed: u8,
    least: usize,
    ghost low: { n ≤ top_threshold },
    ghost some: { 1 ≤ l },
    ghost inside: { l ≤ dock.board.tasks },
    ghost extra_right: { extra ≡ handed (chain dock) 2 },
    ghost fixed_right: { Fixed (chain dock) l fixed },
}

// A body as it counts beside what is left, which is never above NONE.
fn capped(own: u64) -> u32
    ensures { result ≡ min own none }
{
    own.min(u64::from(NONE)) as u32
}

// Raises the slacks after `at` of low to high cores to what is left beside a body, by the row that starts at `from`.
fn raise(work: &mut [u32], at: usize, left: &[u32], from: usize, own: u64, low: usize, high: usize)
    requires { (at + high < length work.old) × (from + high < length left.now) }
    ensures { Raised work.old work.new (λ b. get_or left.now (from + b) 0) at own low high }
{
    let taken = capped(own);
    for b in low..=high {
        let slack = left[from + b].saturating_sub(taken);
        work[at + b] = work[at + b].max(slack);
    }
}

// The body of a module of q cores from task t to l, which ends within its reach (document 02, M-102), by that from task t + 1 on.
fn grow(work: &[u32], t: u8, l: u8, q: u8, own: u64) -> u64
    requires { (table_words ≤ length work.now) × (1 ≤ t) × (t ≤ 12) × (q ≤ 32) × ReachedIn work.now (t - 1) l q × (own < 1099511627776) }
    ensures { (result ≡ get_or work.now (execution_at (t - 1) q) 0 + cond (ltb t l) (get_or work.now (internal_at (t - 1) q) 0) 0 + own)
        × (result < own + 8589934592) }
{
    let i = ((t - 1) as usize) * SIDE + (q as usize);
    let sum = own + u64::from(work[EXECUTIONS + i]);
    if t < l {
        sum + u64::from(work[INTERNALS + i])
    } else {
        sum
    }
}

// The modules of q cores that end with task l, from the shortest to the first that breaks a rule or takes all that is left: `left` is what
// they leave, with one copy and with any, nothing below `start` cores, and `fixed` the last task that allows no copies. With cores with
// which a module leaves nothing the longer ones, which take no less, leave nothing either.
fn push(work: &mut [u32], cores: u8, l: u8, q: u8, start: usize, fixed: u8, left: &[u32])
    requires { (table_words ≤ length work.old) × (cores ≤ 32) × (l ≤ 12) × (q ≤ start) × (start ≤ cores) × (66 ≤ length left.now) × NoneLeft left.now q start
        × OneNoMore left.now q cores }
    ensures { PushedAll work.old work.new cores l q fixed left.now }
{
    let mut own: u64 = 0;
    let mut first = start;
    for t in (1..=l).rev() {
        let before = t - 1;
        let i = (before as usize) * SIDE + (q as usize);
        if work[REACHES + i] < (l as u32) {
            return;
        }
        own = grow(work, t, l, q, own);
        let taken = capped(own);
        let from = row_of(fixed, before);
        first = first_above(left, from, first, cores as usize, taken);
        if (cores as usize) < first {
            return;
        }
        let at = (before as usize) * SQUARE + (q as usize) * SIDE;
        raise(work, at, left, from, own, first, cores as usize);
    }
}

// The row of what modules after task t leave: that of one copy, or of any where they start after the last task that allows none.
fn row_of(fixed: u8, t: u8) -> usize
    ensures { (result ≡ cond (leb fixed t) 33 0) × (result ≤ 33) }
{
    if fixed <= t { SIDE } else { 0 }
}

impl Ending<'_> {
    // The modules of q cores, whose rests' slacks stand in the row l: none where the task alone breaks a rule, or no rest fits beside a copy.
    // They leave nothing with fewer cores than a copy and the least rest that is sent to take.
    fn end_at(&self, work: &mut [u32], q: u8)
        requires { Area self.now.dock.board work.old × (1 ≤ q) × (q ≤ self.now.dock.board.cores) × Laid (chain self.now.dock) work.old
            × (self.now.l < self.now.dock.board.tasks → RowFilled (chain self.now.dock) self.now.n work.old self.now.l)
            × LeastRest self.now.dock.board.tasks self.now.dock.board.cores work.old self.now.l self.now.least }
        ensures { Pushed (chain self.now.dock) work.old work.new
            (one_on (chain self.now.dock) self.now.n self.now.l q) (any_on (chain self.now.dock) self.now.n self.now.l q) 0 self.now.l q }
    {
        let cores = self.dock.board.cores as usize;
        let end = cores - (q as usize);
        if end < self.least {
            return;
        }
        let alone = ((self.l - 1) as usize) * SIDE + (q as usize);
        if work[REACHES + alone] < (self.l as u32) {
            return;
        }
        let mut left = [0u32; PLACES];
        let start = left_from(
            self.dock.costs,
            self.dock.board,
            work,
            self.n,
            self.extra,
            self.l,
            q,
            self.least,
            &mut left,
        );
        if cores < start {
            return;
        }
        push(
            work,
            self.dock.board.cores,
            self.l,
            q,
            start,
            self.fixed,
            &left,
        );
    }
}

// No slack for any rest after task t, with up to so many cores.
fn clear_after(work: &mut [u32], t: u8, cores: u8)
    requires { (table_words ≤ length work.old) × (t < 12) × (cores ≤ 32) }
    ensures { Cleared work.old work.new (t * 1089) (t * 1089 + (cores + 1) * 33) }
{
    let start = (t as usize) * SQUARE;
    let end = start + ((cores as usize) + 1) * SIDE;
    work[start..end].fill(0);
}

// No slack for any rest of a chain of so many tasks, with up to so many cores.
fn clear(work: &mut [u32], tasks: u8, cores: u8)
    requires { (table_words ≤ length work.old) × (tasks ≤ 12) × (cores ≤ 32) }
    ensures { NoSlacks work.old work.new tasks cores }
{
    for t in 0..tasks {
        clear_after(work, t, cores);
    }
}

impl Dock<'_> {
    // Of the tasks up to l the last that is not replicable, 0 where there is none: modules are compared with it by where they start.
    fn last_fixed(&self, l: u8) -> u8
        ensures { Fixed (chain self.now) l result }
    {
        for t in (1..=l).rev() {
            if !modules::copies_allowed(self.costs, self.board, t, t, 2) {
                return t;
            }
        }
        0
    }

    // The modules that end with task l, of all numbers of cores.
    fn end_all(&self, work: &mut [u32], n: u64, l: u8)
        requires { Area self.now.board work.old × (n ≤ top_threshold) × (1 ≤ l) × (l ≤ self.now.board.tasks) × Laid (chain self.now) work.old
            × FilledAfter (chain self.now) n work.old l }
        ensures { (length work.new ≡ length work.old) × Laid (chain self.now) work.new
            × FilledAfter (chain self.now) n work.new (l - 1)
            × KeptBeyond work.old work.new }
    {
        let extra = modules::handed(self.costs, self.board, 2);
        let fixed = self.last_fixed(l);
        let least = least_rest(work, self.board, l);
        let ending = Ending {
            dock: *self,
            n,
            l,
            extra,
            fixed,
            least,
        };
        for q in 1..=self.board.cores {
            ending.end_at(work, q);
        }
    }

    // The slack table of the threshold n.
    pub(crate) fn fill(&self, work: &mut [u32], n: u64)
        requires { Area self.now.board work.old × (n ≤ top_threshold) × Laid (chain self.now) work.old }
        ensures { (length work.new ≡ length work.old) × Laid (chain self.now) work.new
            × AllFilled (chain self.now) n work.new
            × KeptBeyond work.old work.new }
    {
        clear(work, self.board.tasks, self.board.cores);
        for l in (1..=self.board.tasks).rev() {
            self.end_all(work, n, l);
        }
    }
}
