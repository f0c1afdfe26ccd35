// What a search for the least threshold reads.
use records::Board;

// The costs of a board.
#[derive(Clone, Copy)]
pub(crate) struct Dock<'a> {
    pub costs: &'a [u8],
    pub board: Board,
}
