// Laws for costs (document 02, M-101): those of document 000, section 5, in whole ticks, each in a record of 24 bytes. What a record
// states, whether it is the law that is due, and what a law gives.
//
// No public function has a `requires`: each answers for every slice and every number.
#![tactic(auto)]

mod form;
mod value;

pub use form::{EXTERNAL, LAW_BYTES, cost_at, law_meets};
pub use value::law_at;

// The law that a cost follows: constant, or of three or five terms, by its coefficients.
#[derive(Clone, Copy)]
pub enum Law {
    Constant(u32),
    Three {
        c1: u32,
        c2: u32,
        c3: u32,
    },
    Five {
        c1: u32,
        c2: u32,
        c3: u32,
        c4: u32,
        c5: u32,
    },
}

// A cost: a task's execution (kind 3), or the internal (4) or external (5) transfer from it to the next one, with its law. The kind is the
// record's byte, whatever it is: `cost_at` answers for every record.
#[derive(Clone, Copy)]
pub struct Cost {
    pub kind: u8,
    pub task: u8,
    pub law: Law,
}
