// Quotients of whole numbers, rounded up: those of a law (document 02, M-101) and a task's share of memory (M-103).
//
// The public function has no `requires`: it answers for every two numbers.
#![tactic(auto)]

mod quotient;

pub use quotient::rounded_up;
