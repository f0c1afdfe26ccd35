// Cost records (document 01, "Cost records"): a board's costs as fixed records of 8 bytes, each a kind, a task, a, b and
// a value of four bytes, lowest first.
//
// A task's core limit (document 02, M-100) is byte b of its record, what handing out to copies costs (M-106) the task byte of the first.
//
// `read` says whether a byte string is a board's costs, or which of refusals 1 to 6 is due; `read_board` asks the length and the
// first record only, refusals 1 to 3, `read_tasks` the tasks' records, 5 and 6. No public function has a `requires`: each answers for
// every slice and every number.
#![tactic(auto)]

ghost use Rattle.std.specs.Prelude.{◌≡◌};
ghost use Rattle.records.specs.Filled.{filled_of};

mod keys;
mod refusal;
mod runs;
mod scan;

pub use keys::{MOST_CORES, MOST_VALUE, count, fault};
pub use refusal::{Fault, Refusal};
pub use scan::{MOST_TASKS, read, read_board, read_tasks};

// The board of document 01: its k tasks, its P cores and the capacity of a core in KiB.
#[derive(Clone, Copy)]
pub struct Board {
    pub tasks: u8,
    pub cores: u8,
    pub capacity: u32,
}

// What a service that only fills an output answers the C interface: how many bytes or entries it has filled in, or a refusal's number
// and place, with count 0. For a reach (document 02, M-102) the count is the reach, for a single-block time (M-104) the time.
#[repr(C)]
#[derive(Clone, Copy)]
pub struct Filled {
    pub refusal: u32,
    pub place: u32,
    pub count: u32,
}

impl From<Result<u32, Refusal>> for Filled {
    ghost from_gives = { λ answer filled. filled ≡ filled_of answer };

    fn from(answer: Result<u32, Refusal>) -> Filled {
        match answer {
            Ok(count) => Filled {
                refusal: 0,
                place: 0,
                count,
            },
            Err(refusal) => Filled {
                refusal: refusal.number(),
                place: refusal.place(),
                count: 0,
            },
        }
    }
}

// What the first four bytes of a record are to be. The kind is a number, and no enum, since `fault` and the laws' test answer for a key of any kind,
// and it is compared with whatever byte the record has.
#[derive(Clone, Copy)]
pub struct Key {
    pub kind: u32,
    pub task: u32,
    pub a: u32,
    pub b: u32,
}
