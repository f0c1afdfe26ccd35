// The program `plan` (document 01, "A small dock"): cost records on standard input, the text of Best plan's answer on standard output.
#![tactic(auto)]

ghost use Rattle.std.specs.Prelude.{◌≡◌};
ghost use Rattle.console.specs.Text.{text_of};
ghost use Rattle.plan.specs.Plan.{plan_text, program_text};

use console::{Input, Text};
use figures::Answer;

// The file descriptor of standard output.
const STDOUT_FILENO: i32 = 1;

// A write that fails has nobody to be told: a program has no exit status.
fn write(text: Text) {
    io::write_all(STDOUT_FILENO, text.as_str().as_bytes());
}

// The text of Best plan's answer on the costs.
fn answer(costs: &[u8]) -> Text
    ensures { text_of result ≡ plan_text costs.now }
{
    let mut plan = [0u8; 48];
    let mut work = [0u32; 16384];
    let best = planners::best_plan(costs, &mut plan, &mut work);
    console::report(costs, Answer::from(best), &plan)
}

// The text for what came in: "longer input prints `too long`", else the answer on the bytes read. A length above the file's means
// the whole file.
fn text_of(input: Input, file: &[u8]) -> Text
    ensures { text_of result ≡ program_text input file.now }
{
    if input.longer {
        return console::too_long();
    }
    let n = input.length.min(file.len());
    answer(&file[..n])
}

// "It holds 65,536 bytes": takes in that many, and writes the text for what came.
fn main() {
    let mut space = [0u8; 65536];
    let input = console::take_in(&mut space);
    write(text_of(input, &space));
}
