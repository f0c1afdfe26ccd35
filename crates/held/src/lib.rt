// Cost records that were read, held in a struct with k and P (document 01, "Cost records": they stay in the caller's bytes and are
// looked up there). The layers above look every cost up by `need` and the like, which go by way of the struct.
//
// No public function has a `requires`: each answers for every slice, board and number.
#![tactic(auto)]

mod boards;
mod held;

pub use boards::{execution, hand_out, internal, limit, need, replicable, transfer};
pub use held::{
    Costs, execution_held, external_held, hand_out_held, hold, internal_held, limit_held,
    need_held, replicable_held,
};
