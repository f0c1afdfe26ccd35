// Where the tables of a search stand in the lent words.

// What a task takes at q cores, its internal transfer to the next one, and the last task of the longest module of one copy that starts
// with it, each at its start + t · 33 + q for the task t + 1.
pub const EXECUTIONS: usize = 13068;

pub const INTERNALS: usize = 13464;

pub const REACHES: usize = 13860;
