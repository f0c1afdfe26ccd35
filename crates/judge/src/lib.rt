// The service Judge (document 01, "Three services"; refusals 1 to 7 and 12 to 15; document 02, M-100, refusal 16), over the figures of
// a plan, and the single-block time of a plan that it passes (M-104). The definitions are specs/Judge.antt and specs/Timed.antt, the
// documents' conditions as direct statements are specs/Claims.antt, and the laws proofs/Laws.antt.
#![tactic(auto)]

mod timed;
mod verdict;

pub use timed::block_time;
pub use verdict::{judge, judge_bytes, limit_fault};
