// The lines of an answer. A line's function puts the line behind a text, and asks its caller for the room.
ghost use Rattle.std.specs.Prelude.{◌≡◌, ◌++◌, ◌+◌, ◌*◌, ◌≤◌};
ghost use Rattle.arrayvec.specs.ArrayString.{array_string_len};
ghost use Rattle.modules.specs.Model.{chain_of};
ghost use Rattle.layout.specs.Layout.{most_modules};
ghost use Rattle.console.specs.Text.{text_of, module_line, slowest_line, refused_line, too_long, module_lines, report_text};
ghost use Rattle.console.specs.Room.{room, line_room, slowest_room};

use crate::Text;
use crate::words::{ended, spaced};
use figures::Answer;
use layout::MOST_MODULES;
use modules::Module;
use records::Board;

// A module of response x.
fn module_line(text: &mut Text, m: Module, x: u64)
    requires { array_string_len text.old + line_room ≤ room }
    ensures { (text_of text.new ≡ text_of text.old ++ module_line m x) × (array_string_len text.new ≤ array_string_len text.old + line_room) }
{
    spaced(text, m.first as u64);
    spaced(text, m.last as u64);
    spaced(text, m.copies as u64);
    spaced(text, m.cores as u64);
    ended(text, x);
}

// The text of the first count modules of a plan, a line each.
fn module_lines(costs: &[u8], board: Board, plan: &[u8], count: u32) -> Text
    requires { count ≤ most_modules }
    ensures { (text_of result ≡ module_lines (chain_of costs.now board) plan.now count) × (array_string_len result ≤ count * line_room) }
{
    let mut text = Text::new();
    for i in 0..count {
        let m = layout::module_at(plan, i);
        let x = figures::response(costs, board, plan, i);
        module_line(&mut text, m, x);
    }
    text
}

// The slowest module, its response and r, and the cores.
fn slowest_line(text: &mut Text, a: Answer)
    requires { array_string_len text.old + slowest_room ≤ room }
    ensures { text_of text.new ≡ text_of text.old ++ slowest_line a }
{
    text.push_str("slowest ");
    spaced(text, a.slowest as u64);
    spaced(text, a.response);
    spaced(text, a.copies as u64);
    text.push_str("cores ");
    ended(text, a.cores as u64);
}

// The line of a refusal, by its number and place: an answer of any numbers has one, which a `Refusal` would not.
pub fn refused(answer: Answer) -> Text
    ensures { text_of result ≡ refused_line answer }
{
    let mut text = Text::new();
    text.push_str("refused ");
    spaced(&mut text, answer.number as u64);
    ended(&mut text, answer.place as u64);
    text
}

// The line for input that is longer than a program holds.
pub fn too_long() -> Text
    ensures { text_of result ≡ too_long }
{
    let mut text = Text::new();
    text.push_str("too long\n");
    text
}

// The text of a service's answer on the costs, with the plan bytes that it filled: the plan's modules and its bottleneck, or the
// refusal. Of any answer, whatever its numbers are, at most twelve modules are shown.
pub fn report(costs: &[u8], answer: Answer, plan: &[u8]) -> Text
    ensures { text_of result ≡ report_text costs.now answer plan.now }
{
    if answer.number != 0 {
        return refused(answer);
    }
    let none = Board {
        tasks: 0,
        cores: 0,
        capacity: 0,
    };
    let board = records::read(costs).unwrap_or(none);
    let count = answer.modules.min(MOST_MODULES);
    let mut text = module_lines(costs, board, plan, count);
    slowest_line(&mut text, answer);
    text
}
