// A module that has grown up to a task, as the first of a rest.
ghost use Rattle.std.specs.Prelude.{◌≤◌};
ghost use Rattle.weights.specs.Places.{Stands};
ghost use Rattle.weights.specs.Cells.{Loaded};
ghost use Rattle.weights.specs.Scales.{chain_in};

use crate::after::Rest;
use crate::scale::Scale;

// The first module of the rest up to its last task: what one copy takes before it sends, its body alone, what handing out to several copies
// costs, and whether it may have them. It ends within its reach, and in one copy keeps the rules.
#[derive(Clone, Copy)]
pub(crate) struct Grown<'a> {
    pub scale: Scale<'a>,
    pub rest: Rest,
    pub last: u8,
    pub base: u64,
    pub stay: u64,
    pub out: u64,
    pub rep: bool,
    ghost stands: { Stands (chain_in scale) scale.n rest },
    ghost enough: { rest.cores ≤ rest.left },
    ghost loaded: { Loaded (chain_in scale) rest.before rest.from rest.cores last base stay out rep },
}
