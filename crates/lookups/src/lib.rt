// Lookups in cost records (document 01, "Cost records"), on a slice and numbers: each cost where it stands in the caller's bytes.
//
// No public function has a `requires`: each answers for every slice and every number. Tasks and cores are counted from 1, in one
// byte each, so that no place in a file can overflow.
#![tactic(auto)]

mod lookup;

pub use lookup::{
    execution_at, external, external_at, hand_out_at, internal_at, limit_at, need_at, pair,
    replicable_at,
};
