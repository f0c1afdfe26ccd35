// Document 01's Best plan: of all plans that keep the rules the one of least bottleneck, then of fewest cores, then of least single-block
// time (document 02, M-104), then first in module order.
//
// It fills the lent plan bytes and answers with the plan's figures, or refuses and leaves them as they came.
#![tactic(auto)]

mod best;

pub use best::best_plan;
