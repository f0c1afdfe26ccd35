// Costs from a few measurements (document 02, M-101): from the records of kinds 1 and 2 and a law for each cost, the full set of cost
// records.
//
// No public function has a `requires`: each answers for every slice and every number.
#![tactic(auto)]

mod fill;
mod first;
mod order;

pub use fill::fill_costs;
