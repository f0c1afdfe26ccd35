// Which threshold to try next in the search for the least one (docs/THRESHOLD.md). Any in the bracket is right, so a guess is promised to lie
// in it and nothing else; what is worked out here only makes fewer tries likely.
//
// No public function has a `requires`: each answers for all bytes, boards and numbers.
#![tactic(auto)]

mod bounds;
mod choice;

pub use bounds::{start, threshold_of};
pub use choice::choose;

// The greatest threshold: 1024 times 23,000,255 ticks, more than which no module takes on accepted costs.
pub const TOP: u64 = 23552261120;

// The greatest response that one copy may have within it.
const TOP_RESPONSE: u64 = 23000255;

// Fractions whose denominators are at most 32 are equal or at least 1/1024 apart.
pub const GRAIN: u64 = 1024;

// TOP + 1 stands for "none" here, and for a threshold that no plan is within: a bracket ends there, and in a minimum it drops out.
//
// The search so far: no plan is within a threshold below lo; some plan is within hi, or hi is TOP + 1. All else is for guesses: what no
// plan, most likely, is below, and the threshold of the best plan of one module; the fewest cores of a plan within hi, and the tries
// without a plan and with one since the last other.
#[derive(Clone, Copy)]
pub struct Hunt {
    pub lo: u64,
    pub hi: u64,
    pub bound: u64,
    pub single: u64,
    pub cores: u8,
    pub misses: u8,
    pub finds: u8,
}
