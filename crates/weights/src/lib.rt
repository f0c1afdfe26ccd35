// What the lightest plans within the least threshold weigh (docs/THRESHOLD.md): a plan weighs UNIT for each of its cores, and its single-block
// time (document 02, M-104).
//
// No public function has a `requires`: each answers for all bytes, boards and words. The promise of `lightest_plans` is `LightestOf` of
// specs/Lightest.antt.
#![tactic(auto)]

mod after;
mod grown;
mod lightest;
mod loads;
mod marks;
mod scale;
mod sweep;
mod weigh;

pub use lightest::{Lightest, lightest_plans};
pub use loads::UNIT;
pub use marks::weight_of;
