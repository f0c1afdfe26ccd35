// A guess from the search so far.
ghost use Rattle.std.specs.Prelude.{◌+◌, ◌≤◌, ◌<◌};
ghost use Rattle.slack.specs.Problem.{top_threshold};

use crate::{Hunt, TOP};

// A step up from the bound, four times as far after a try without a plan; after two, the greatest threshold, which decides whether there
// is a plan at all.
fn step_up(lo: u64, bound: u64, misses: u8) -> u64
    requires { (lo ≤ top_threshold + 1) × (bound ≤ top_threshold + 1) }
{
    let far = bound / 2 + 1;
    match misses {
        0 => lo + far,
        1 => lo + 4 * far,
        _ => TOP,
    }
}

// While no plan is known: about that of one module, or up from the bound.
fn begin(h: Hunt) -> u64 {
    let bound = h.bound.min(TOP + 1);
    let single = h.single.min(TOP + 1);
    let lo = h.lo.max(bound).min(TOP + 1);
    if single <= 2 * lo {
        return if h.lo < single { single - 1 } else { single };
    }
    if bound < single / 8 && single <= TOP {
        return lo + (single - lo) / 2;
    }
    step_up(lo, bound, h.misses)
}

// The lower end, or the bound where that lies in the bracket.
fn raised(h: Hunt) -> u64
    requires { h.lo < h.hi }
    ensures { result ≤ h.hi }
{
    if h.lo < h.bound && h.bound < h.hi {
        h.bound
    } else {
        h.lo
    }
}

// Halfway from lo to the upper end, where they are more than a sixteenth of it apart; else just below it.
fn halfway(h: Hunt, lo: u64) -> u64
    requires { (lo ≤ h.hi) × (1 ≤ h.hi) × (h.hi ≤ top_threshold) }
{
    if h.hi / 16 < h.hi - lo {
        (lo + h.hi) / 2
    } else {
        h.hi - 1
    }
}

// Once a plan is known: where it leaves cores, fewer ticks in proportion; else just below it, now and then halfway.
fn go_on(h: Hunt, cores: u8) -> u64
    requires { (h.lo < h.hi) × (h.hi ≤ top_threshold) }
{
    let lo = raised(h);
    let middle = (lo + h.hi) / 2;
    let below = h.hi - 1;
    if h.cores < cores {
        match h.misses {
            0 => {
                let n = h.hi * (2 * u64::from(h.cores) + 1) / (2 * u64::from(cores));
                if lo < n { n } else { middle }
            }
            1 => halfway(h, lo),
            _ => below,
        }
    } else if h.misses == 0 && h.finds % 7 == 6 {
        middle
    } else {
        below
    }
}

// A guess, not yet in the bracket.
fn guess(h: Hunt, cores: u8) -> u64
    requires { h.lo < h.hi }
{
    if TOP < h.hi {
        begin(h)
    } else {
        go_on(h, cores)
    }
}

// A threshold to try on a board of so many cores: any from lo to hi - 1 is right.
pub fn choose(h: Hunt, cores: u8) -> u64
    ensures { h.lo < h.hi → (h.lo ≤ result) × (result < h.hi) }
{
    if h.hi <= h.lo {
        return h.lo;
    }
    guess(h, cores).clamp(h.lo, h.hi - 1)
}
