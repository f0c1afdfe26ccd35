// A module of a plan (document 01, "The chain and the board"; document 02, M-100, M-102 to M-104 and M-106; source document 000, 2.1 and 2.2): what it
// costs, which rules it keeps and how far it can go.
//
// Whatever lies above takes every cost and test of a module from here. No public function has a `requires`: each answers for all
// bytes, boards and numbers. A task, a count of copies and a count of cores are one byte each, as in plan bytes.
#![tactic(auto)]

mod cost;
mod reaching;
mod rules;

pub use cost::{body, handed, passage, response_of, share, transfer};
pub use reaching::read_reach;
pub use rules::{copies_allowed, fewest_cores, memory_fits, rules_met, still_kept, within_limit};

// A module of a plan: an unbroken run of tasks, first to last, in r copies of p cores each.
#[derive(Clone, Copy, PartialEq, Eq, Default)]
pub struct Module {
    pub first: u8,
    pub last: u8,
    pub copies: u8,
    pub cores: u8,
}
