// What the programs share (document 01, the program `plan`): taking in standard input, and the text of an answer.
//
// No public function has a `requires`, and each text is promised by an equation with a definition of `specs/Text.antt`.
#![tactic(auto)]

mod intake;
mod lines;
mod words;

use arrayvec::ArrayString;
pub use intake::take_in;
pub use lines::{refused, report, too_long};

// What came on standard input: how many bytes the file took, and whether more came than it holds. The length stands beside the flag
// because `take_in` promises it in both cases.
#[derive(Clone, Copy)]
pub struct Input {
    pub length: usize,
    pub longer: bool,
}

// The bytes that a text has room for: more than twelve modules and the slowest take.
const ROOM: usize = 2048;

// A text.
pub type Text = ArrayString<ROOM>;
