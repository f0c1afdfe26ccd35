// Rests of plans by the words of a slack table (docs/THRESHOLD.md): whether one can still receive, and the fewest cores of one, and of a whole
// plan.
//
// No public function has a `requires`: each answers for all boards, words and numbers.
#![tactic(auto)]

mod table;

pub use table::{cores_needed, fewest_cores, served_in};
