// The copies of a module of a plan of the fewest cores: the fewest do.
ghost use Rattle.std.specs.Prelude.{◌≡◌, MatchOption, cond, ◌+◌, ◌≤◌, ◌<◌, ltb};
ghost use Rattle.modules.specs.Model.{transfer};
ghost use Rattle.search.specs.Copies.{fewest};
ghost use Rattle.weights.specs.Places.{Tabled};
ghost use Rattle.weights.specs.Scales.{chain_in};
ghost use Rattle.weights.specs.Cells.{no_plan, FewestCopies};

use crate::grown::Grown;
use guess::GRAIN;
use rests::served_in;

// What one core weighs: more than the single-block time of any plan, so that cores count first.
pub const UNIT: u32 = 33554432;

// What stands for "none" on a board of so many cores: more than any plan on it weighs. A number and no Option: it stands in the lent words.
pub(crate) fn no_plan(cores: u8) -> u32
    requires { cores ≤ 32 }
    ensures { (result ≡ no_plan cores) × (1 ≤ result) }
{
    UNIT * ((cores as u32) + 1)
}

// The fewest copies that bring the load, one of a single copy and more of each of several, down to n, where some do.
fn fewest_copies(rep: bool, one: u64, more: u64, n: u64) -> Option<u64>
    requires { (one ≤ more) × (more + n < 18446744073709551616) }
    ensures { MatchOption result (fewest rep one more n ≡ 0) (λ r. (1 ≤ r) × (r ≡ fewest rep one more n)) }
{
    if one <= n {
        return Some(1);
    }
    if rep && 1 <= n {
        return Some((more + (n - 1)) / n);
    }
    None
}

// What is paid of the cost of handing out by r copies (document 02, M-106): all of it where there are several. A function of its own, so that
// `over_copies` has no branch inside a sum.
pub(crate) fn paid(out: u64, r: u64) -> u64
    ensures { result ≡ cond (ltb 1 r) out 0 }
{
    if 1 < r { out } else { 0 }
}

impl Grown<'_> {
    // What it sends to a module of q2 cores.
    pub(crate) fn sent_to(&self, q2: u8) -> u32
        ensures { result ≡ transfer (chain_in self.now.scale) self.now.last self.now.rest.cores q2 }
    {
        modules::transfer(
            self.scale.costs,
            self.scale.board,
            self.last,
            self.rest.cores,
            q2,
        )
    }

    // The fewest copies with which the module may come first in the rest before a module of q2 cores, where some may. Where no rest can follow it at
    // all, nothing is worked out.
    pub(crate) fn copies_to(&self, work: &[u32], q2: u8) -> Option<u8>
        requires { Tabled (chain_in self.now.scale) self.now.scale.board self.now.scale.n work.now × (q2 ≤ self.now.scale.board.cores) }
        ensures { FewestCopies (chain_in self.now.scale) self.now.scale.n self.now.rest.before self.now.rest.from self.now.rest.cores
            self.now.last q2 result }
    {
        let x = self.rest;
        let most = x.left - x.cores;
        if !served_in(work, self.scale.board, self.last, q2, most, 0) {
            return None;
        }
        let sent = self.sent_to(q2);
        let load = (self.base + (sent as u64)) * GRAIN;
        let several = load + self.out * GRAIN;
        let r = fewest_copies(self.rep, load, several, self.scale.n)?;
        if (self.scale.board.cores as u64) < r {
            return None;
        }
        let used = (r as u32) * (x.cores as u32);
        if (self.scale.board.cores as u32) < (x.before as u32) + used + (q2 as u32) {
            return None;
        }
        if (x.left as u32) < used {
            return None;
        }
        if !served_in(
            work,
            self.scale.board,
            self.last,
            q2,
            x.left - (used as u8),
            sent,
        ) {
            return None;
        }
        Some(r as u8)
    }
}
