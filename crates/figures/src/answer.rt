// A service's answer in numbers, as the C interface and the text of an answer give it.
ghost use Rattle.std.specs.Prelude.{◌≡◌};
ghost use Rattle.figures.specs.Plan.{answer_of};

use crate::PlanFigures;
use records::Refusal;

// A refusal's number (0: none) and place, or a plan's figures. A refusal has zero figures.
#[derive(Clone, Copy)]
pub struct Answer {
    pub number: u32,
    pub place: u32,
    pub modules: u32,
    pub cores: u32,
    pub slowest: u32,
    pub copies: u32,
    pub response: u64,
}

impl From<Result<PlanFigures, Refusal>> for Answer {
    ghost from_gives = { λ found answer. answer ≡ answer_of found };

    fn from(found: Result<PlanFigures, Refusal>) -> Answer {
        match found {
            Ok(figures) => Answer {
                number: 0,
                place: 0,
                modules: figures.modules,
                cores: figures.cores,
                slowest: figures.slowest,
                copies: figures.copies,
                response: figures.response,
            },
            Err(refusal) => Answer {
                number: refusal.number(),
                place: refusal.place(),
                modules: 0,
                cores: 0,
                slowest: 0,
                copies: 0,
                response: 0,
            },
        }
    }
}
