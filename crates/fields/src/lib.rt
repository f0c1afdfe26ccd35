// The fields of a record of 8 bytes (document 01, "Cost records"): its kind, task, a and b, one byte each, and its value of four
// bytes, lowest first. No public function has a `requires`: each answers for every slice and every number.
#![tactic(auto)]

mod bytes;

pub use bytes::{byte_at, value_at, wide, word};
