// How a plan goes on: nothing is promised of it but ranges, since what is read off is judged.
ghost use Rattle.std.specs.Prelude.{◌≡◌, ◌*◌, ◌≤◌, ◌<◌, IfSome};
ghost use Rattle.modules.specs.Model.{chain_of};
ghost use Rattle.slack.specs.Problem.{top_threshold, Sized, Reached};

use crate::slacks::{first_cores, word_at};
use crate::{SIDE, SQUARE};
use guess::GRAIN;
use layout::PLAN_BYTES;
use modules::Module;
use records::Board;

// Above every transfer that a rest can still receive.
const NONE: u32 = 4294967295;

// What a plan is read off: the costs of a board in range, and the words of the slack table of the threshold n.
#[derive(Clone, Copy)]
pub(crate) struct Table<'a> {
    pub costs: &'a [u8],
    pub board: Board,
    pub work: &'a [u32],
    pub n: u64,
    ghost sized: { Sized board },
    ghost n_most: { n ≤ top_threshold },
}

// How a plan goes on: the last task and the copies of its next module, and the cores of the one after it, 0 at the end of the chain, as
// `modules::transfer` has it.
#[derive(Clone, Copy)]
pub(crate) struct Onward {
    pub last: u8,
    pub copies: u8,
    pub next: u8,
}

impl Table<'_> {
    // The cores of the next module that has the cheapest transfer of those that can lead a rest of so many cores, where one can.
    fn next_cores(&self, l: u8, q: u8, room: u8) -> Option<u8>
        requires { room ≤ 32 }
        ensures { IfSome result (λ next. next ≤ room) }
    {
        let base = (l as usize) * SQUARE + (room as usize);
        let mut best = None;
        let mut least = NONE;
        for i in 1..=room {
            let e = modules::transfer(self.costs, self.board, l, q, i);
            if e < least && e < word_at(self.work, base + (i as usize) * SIDE) {
                least = e;
                best = Some(i);
            }
        }
        best
    }

    // The cores after a module that takes so long before it sends and has so long in all, 0 behind the last task; none where it is too late.
    // Inlined it makes LLVM compile the loop over the copies into vectors, 1.3 KB of code for a walk that a try takes once.
    #[inline(never)]
    fn cores_after(&self, l: u8, q: u8, taken: u64, time: u64, room: u8) -> Option<u8>
        requires { (room ≤ 32) × (taken < 17592186044416) }
        ensures { IfSome result (λ next. next ≤ room) }
    {
        if time < taken {
            return None;
        }
        if l == self.board.tasks {
            return Some(0);
        }
        let next = self.next_cores(l, q, room)?;
        let sent = u64::from(modules::transfer(self.costs, self.board, l, q, next));
        if taken + sent <= time {
            Some(next)
        } else {
            None
        }
    }

    // How the module up to task l, of q cores and `taken` ticks before it sends, goes on with the fewest copies with which it can, up to the
    // most.
    fn with_copies(&self, l: u8, q: u8, taken: u64, most: u8, room: u8) -> Option<Onward>
        requires { (most * q ≤ room) × (room ≤ 32) × (most ≤ 32) × (taken < 8796093022208) }
        ensures { IfSome result (λ x. (x.last ≡ l) × (x.copies ≤ most) × (x.next ≤ room)) }
    {
        for r in 1..=most {
            let out = u64::from(modules::handed(self.costs, self.board, r));
            let time = self.n * u64::from(r) / GRAIN;
            let next = self.cores_after(l, q, taken + out, time, room - r * q);
            if let Some(next) = next {
                return Some(Onward {
                    last: l,
                    copies: r,
                    next,
                });
            }
        }
        None
    }

    // What the module of tasks t + 1 to l, which ends within its reach, takes before it sends, where it receives in `received` ticks.
    fn taken_by(&self, t: u8, l: u8, q: u8, received: u32) -> u64
        requires { Reached (chain_of self.now.costs.now self.now.board) t l }
        ensures { result < 8796093022208 }
    {
        modules::body(self.costs, self.board, t + 1, l, q) + u64::from(received)
    }

    // The most copies of q cores that a module of tasks t + 1 to l may have in so many cores.
    fn most_copies(&self, t: u8, l: u8, q: u8, room: u8) -> u8
        requires { (t < l) × (1 ≤ q) × (room ≤ 32) }
        ensures { (result * q ≤ room) × (result ≤ 32) }
    {
        let most = room / q;
        if most <= 1 || modules::copies_allowed(self.costs, self.board, t + 1, l, 2) {
            most
        } else {
            1
        }
    }

    // The first module after task t, of q cores, that can go on in so many cores where it receives in `received` ticks; 0 cores are no module.
    fn go_onward(&self, t: u8, q: u8, received: u32, room: u8) -> Option<Onward>
        requires { (t ≤ self.now.board.tasks) × (q ≤ self.now.board.cores) × (room ≤ 32) }
        ensures { IfSome result (λ x. (t < x.last) × (x.last ≤ self.now.board.tasks) × (x.copies * q ≤ room) × (x.next ≤ room)) }
    {
        if q < 1 {
            return None;
        }
        for l in t + 1..=self.board.tasks {
            if !modules::rules_met(self.costs, self.board, t + 1, l, 1, q) {
                return None;
            }
            let taken = self.taken_by(t, l, q, received);
            let most = self.most_copies(t, l, q, room);
            if let Some(x) = self.with_copies(l, q, taken, most, room) {
                return Some(x);
            }
        }
        None
    }

    // The plan, with b cores in all; what is left of the chain stays blank where the walk is lost.
    pub(crate) fn read_off(&self, b: u8) -> [u8; PLAN_BYTES]
        requires { b ≤ self.now.board.cores }
    {
        let mut plan = [0u8; PLAN_BYTES];
        let mut q = first_cores(self.work, b);
        let mut received: u32 = 0;
        let mut room = b;
        let mut t: u8 = 0;
        let mut i: u32 = 0;
        // From module to module, of one task or more.
        while t < self.board.tasks {
            let Some(x) = self.go_onward(t, q, received, room) else {
                return plan;
            };
            let m = Module {
                first: t + 1,
                last: x.last,
                copies: x.copies,
                cores: q,
            };
            layout::put_module(&mut plan, i, m);
            received = modules::transfer(self.costs, self.board, x.last, q, x.next);
            room -= x.copies * q;
            t = x.last;
            q = x.next;
            i += 1;
        }
        plan
    }
}
