// The timetable of a stream of blocks (document 02, M-105), over Judge: for a plan with one copy of each module, the tick at which the last
// module is through with each of the blocks 1 to n. The definitions are specs/Stages.antt and specs/Timetable.antt, the machine and the
// request's conditions as direct statements specs/Machine.antt and specs/Claims.antt, and the theorems proofs/Theorems.antt.
//
// The public function has no `requires`: it answers for every slice and every number.
#![tactic(auto)]

mod service;
mod stream;

pub use service::timetable;
