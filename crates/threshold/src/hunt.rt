// The search for the least threshold: a bracket that each try makes narrower. Where a try has a plan, one is read off the table and judged,
// and the bracket goes down to the plan's own bottleneck.
ghost use Rattle.std.specs.Prelude.{◌≡◌, ◌+◌, ◌≤◌, ◌<◌, min, length};
ghost use Rattle.modules.specs.Model.{chain_of};
ghost use Rattle.slack.specs.Problem.{top_threshold};
ghost use Rattle.offers.specs.Words.{Area};
ghost use Rattle.threshold.specs.Docks.{chain};
ghost use Rattle.threshold.specs.Words.{KeptBeyond, Laid, AllFilled};
ghost use Rattle.threshold.specs.Threshold.{Decided, Searched, Bracket, Tried};

use crate::dock::Dock;
use guess::{Hunt, TOP, choose, start};
use offers::has_room;
use records::Board;
use sketch::{has_slack, some_plan};

// The most tries that are guessed; after them each halves the bracket.
const JUMPS: u8 = 24;

// The most tries that halve: 2³⁵ is more than the width of every bracket.
const HALVES: u8 = 35;

// The bracket without a plan within n.
fn missed(h: Hunt, n: u64) -> Hunt
    requires { n ≤ top_threshold }
    ensures { (result.lo ≡ n + 1) × (result.hi ≡ h.hi) }
{
    Hunt {
        lo: n + 1,
        misses: h.misses.saturating_add(1),
        finds: 0,
        ..h
    }
}

// The bracket with a plan within n, of so many cores, and the threshold of one that was judged.
fn found(h: Hunt, n: u64, own: u64, cores: u8) -> Hunt
    ensures { (result.lo ≡ h.lo) × (result.hi ≡ min n own) }
{
    Hunt {
        hi: n.min(own),
        cores,
        misses: 0,
        finds: h.finds.saturating_add(1),
        ..h
    }
}

impl Dock<'_> {
    // What a try at n has shown, by the slack table of n.
    fn narrowed(&self, work: &[u32], n: u64, h: Hunt) -> Hunt
        requires { Area self.now.board work.now × AllFilled (chain self.now) n work.now × Bracket (chain self.now) h.lo h.hi × (h.lo ≤ n) × (n < h.hi) }
        ensures { Tried (chain self.now) n h result }
    {
        if !has_slack(work, self.board.cores) {
            return missed(h, n);
        }
        let some = some_plan(self.costs, self.board, work, n);
        found(h, n, some.threshold.unwrap_or(n), some.cores)
    }

    // Tries that are guessed, up to JUMPS of them.
    fn jump(&self, work: &mut [u32], from: Hunt) -> Hunt
        requires { Area self.now.board work.old × Laid (chain self.now) work.old × Bracket (chain self.now) from.lo from.hi }
        ensures { (length work.new ≡ length work.old) × Laid (chain self.now) work.new
            × Bracket (chain self.now) result.lo result.hi
            × KeptBeyond work.old work.new }
    {
        let mut h = from;
        for _ in 0..JUMPS {
            if h.hi <= h.lo {
                return h;
            }
            let n = choose(h, self.board.cores);
            self.fill(work, n);
            h = self.narrowed(work, n, h);
        }
        h
    }

    // Tries that halve the bracket until nothing is left of it, up to HALVES of them: the least threshold.
    fn halve(&self, work: &mut [u32], from: Hunt) -> u64
        requires { Area self.now.board work.old × Laid (chain self.now) work.old × Bracket (chain self.now) from.lo from.hi }
        ensures { (length work.new ≡ length work.old) × Laid (chain self.now) work.new
            × Decided (chain self.now) result
            × KeptBeyond work.old work.new }
    {
        let mut h = from;
        // The tries that are left, by which the proof bounds the bracket.
        for _left in (0..HALVES).rev() {
            if h.hi <= h.lo {
                return h.lo;
            }
            let n = (h.lo + h.hi) / 2;
            self.fill(work, n);
            h = self.narrowed(work, n, h);
        }
        h.lo
    }
}

// The least threshold that some plan is within; none where none is within TOP, or where the board is out of range or the words are too
// few. Afterwards the words hold what is laid and, where some plan is within it, its slack table; in the last two cases they are as they came.
// The words behind the tables always are.
pub fn least_threshold(costs: &[u8], board: Board, work: &mut [u32]) -> Option<u64>
    ensures { Searched (chain_of costs.now board) board work.old work.new result }
{
    if !has_room(board, work.len()) {
        return None;
    }
    let dock = Dock { costs, board };
    dock.lay(work);
    let h = start(costs, board);
    let near = dock.jump(work, h);
    let n = dock.halve(work, near);
    if TOP < n {
        return None;
    }
    dock.fill(work, n);
    Some(n)
}
