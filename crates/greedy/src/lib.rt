// The planners' simpler way: document 01's Bench way, the greedy procedure of source document 000, section 4.1, within the limits of
// document 02, M-100.
//
// It fills the lent plan bytes and answers with the plan's figures, or refuses and leaves them as they came.
#![tactic(auto)]

mod greedy;

pub use greedy::greedy_plan;
