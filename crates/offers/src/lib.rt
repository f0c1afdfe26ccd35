// What modules that end with one task leave to those before them, by the slacks of the rests after it (docs/THRESHOLD.md).
//
// No public function has a `requires`: each answers for all bytes, boards and words. The promises stand in specs/Leaving.antt and Words.antt.
#![tactic(auto)]

mod ends;
mod leave;
mod words;

pub use ends::{first_above, least_rest};
pub use leave::{PLACES, left_from};
pub use words::{NONE, has_room};
