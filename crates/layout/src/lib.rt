// Plan bytes (document 01, "Plan bytes"): how a plan's modules are laid out. No public function has a `requires`: each answers for all
// bytes and numbers.
#![tactic(auto)]

mod layout;

pub use layout::{module_at, module_count, put_module, put_plan};

// The most modules of a plan, and the bytes that they take.
pub const MOST_MODULES: u32 = 12;

pub const PLAN_BYTES: usize = 48;
