// The figures of a plan (document 01, "The chain and the board", "Plan bytes"; document 02, M-104; source document 000, 2.1
// and 2.2): what plan bytes say, and what such a plan costs.
//
// Whatever lies above takes every figure of a plan from here. No public function has a `requires`: each answers for all bytes, boards
// and numbers.
#![tactic(auto)]

mod answer;
mod plan;

pub use answer::Answer;
pub use plan::{block_time, cores_used, figures, response};

// What a plan costs: its count of modules, its cores, and of its bottleneck the number of the module, counted from 1, its response and its
// copies.
#[derive(Clone, Copy)]
pub struct PlanFigures {
    pub modules: u32,
    pub cores: u32,
    pub slowest: u32,
    pub copies: u32,
    pub response: u64,
}

// A module by its number in a plan, counted from 1, with its response and its copies.
#[derive(Clone, Copy, Default)]
pub struct Slowest {
    pub number: u32,
    pub response: u64,
    pub copies: u32,
}
