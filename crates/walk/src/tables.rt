// What the walk reads: the costs of a board, and the words of a search whose cells are weighed.
ghost use Rattle.modules.specs.Model.{chain_of};
ghost use Rattle.weights.specs.Places.{Tabled};
ghost use Rattle.weights.specs.Cells.{Weighed};

use records::Board;

// The costs of a board, and the words that hold the tables and the weighed cells of the least threshold n.
#[derive(Clone, Copy)]
pub(crate) struct Tables<'a> {
    pub costs: &'a [u8],
    pub board: Board,
    pub work: &'a [u32],
    pub n: u64,
    ghost tabled: { Tabled (chain_of costs.now board) board n work.now },
    ghost weighed: { Weighed (chain_of costs.now board) n work.now },
}
