// A rest of a plan of the fewest cores, in its place.
ghost use Rattle.std.specs.Prelude.{◌≡◌, ◌+◌, ◌≤◌, ◌<◌};
ghost use Rattle.offers.specs.Words.{Area};
ghost use Rattle.weights.specs.Places.{StandsBy};
ghost use Rattle.weights.specs.Scales.{chain_in};

use crate::scale::Scale;
use rests::cores_needed;

// A rest of the plan: after a module of `before` cores and the task `from`, its first module having `cores`. It receives in so many ticks,
// and has so many cores left.
#[derive(Clone, Copy)]
pub(crate) struct Rest {
    pub before: u8,
    pub from: u8,
    pub cores: u8,
    pub received: u32,
    pub left: u8,
}

impl Scale<'_> {
    // The rest after a module of s cores and task t whose first module has q.
    pub(crate) fn rest_after(&self, work: &[u32], s: u8, t: u8, q: u8) -> Rest
        requires { Area self.now.board work.now × (1 ≤ t) × (t < self.now.board.tasks) × (1 ≤ q) × (s + q ≤ self.now.board.cores) }
        ensures { (result.before ≡ s) × (result.from ≡ t) × (result.cores ≡ q) × StandsBy (chain_in self.now) work.now result }
    {
        let received = modules::transfer(self.costs, self.board, t, s, q);
        let left = cores_needed(work, self.board, t, q, received);
        Rest {
            before: s,
            from: t,
            cores: q,
            received,
            left,
        }
    }
}
