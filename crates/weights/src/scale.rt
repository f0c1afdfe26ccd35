// What rests are weighed by: the costs of a board, and a threshold.
use records::Board;

// The costs of a board, and the threshold that plans are to be within.
#[derive(Clone, Copy)]
pub(crate) struct Scale<'a> {
    pub costs: &'a [u8],
    pub board: Board,
    pub n: u64,
}
