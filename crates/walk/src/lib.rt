// The walk (docs/THRESHOLD.md): over the weighed cells, module by module, the first in module order after which the rest still fits in what is
// left. Its plan is the first of the lightest within the least threshold.
//
// No public function has a `requires`: `first_plan` answers for all bytes, boards and words. Its promise is `WalkedTo` of specs/First.antt.
#![tactic(auto)]

mod first;
mod next;
mod path;
mod places;
mod rooms;
mod tables;
mod turn;

pub use first::first_plan;
