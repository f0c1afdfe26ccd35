// The least threshold that some plan is within (docs/THRESHOLD.md): a plan is within n if the response of each of its modules, times
// 1024, is at most n times the module's copies.
//
// Whether some plan is within n is decided by a table of slacks: for each rest of a plan the greatest time in which it can still receive
// what it is sent. Where there is one, a plan is read off the table and judged, and its own bottleneck is the next upper end.
//
// No public function has a `requires`: each answers for all bytes, boards and words. The promise of `least_threshold` is `Searched` of
// specs/Threshold.antt.
#![tactic(auto)]

mod dock;
mod fill;
mod hunt;
mod lay;
mod words;

pub use hunt::least_threshold;
pub use words::{EXECUTIONS, INTERNALS, REACHES};
