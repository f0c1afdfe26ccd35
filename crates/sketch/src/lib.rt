// Some plan within a threshold, read off its slack table (docs/THRESHOLD.md), and judged. What is read off is a guess; Judge's tests and figures
// make it a plan with a bottleneck of its own, and that is what is answered.
//
// No public function has a `requires`: each answers for all bytes, boards, words and numbers.
#![tactic(auto)]

mod judged;
mod onward;
mod slacks;

pub use judged::some_plan;
pub use slacks::{has_slack, word_at};

// The slack of the rest after task t whose first module has q cores, b in all, stands at t · 1089 + q · 33 + b.
pub const SQUARE: usize = 1089;

pub const SIDE: usize = 33;

// A threshold that some plan is within, where one was read off; and the fewest cores with which the table has a plan, a hint for the next
// guess of which nothing is promised.
#[derive(Clone, Copy)]
pub struct Found {
    pub threshold: Option<u64>,
    pub cores: u8,
}
