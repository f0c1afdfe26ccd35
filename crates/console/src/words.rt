// A text, piece by piece. Each function puts one piece more behind a text, and asks its caller for the room.
ghost use Rattle.std.specs.Prelude.{◌≡◌, ◌++◌, ◌+◌, ◌≤◌};
ghost use Rattle.arrayvec.specs.ArrayString.{array_string_len};
ghost use Rattle.console.specs.Text.{text_of, decimal, spaced as spaced_word, ended as ended_word};
ghost use Rattle.console.specs.Room.{room, number_room, word_room};

use crate::Text;

// The most digits of a number of 64 bits.
const DIGITS: usize = 20;

// Puts a number in decimal behind the text. Digits are text, which the proof of the promise holds: `from_utf8` never refuses them.
fn number(text: &mut Text, n: u64)
    requires { array_string_len text.old + number_room ≤ room }
    ensures { (text_of text.new ≡ text_of text.old ++ decimal n) × (array_string_len text.new ≤ array_string_len text.old + number_room) }
{
    let mut digits = [0u8; DIGITS];
    let k = io::decimal(n, &mut digits);
    if let Ok(words) = str::from_utf8(&digits[..k]) {
        text.push_str(words);
    }
}

// Puts a number and a space behind the text.
pub(crate) fn spaced(text: &mut Text, n: u64)
    requires { array_string_len text.old + word_room ≤ room }
    ensures { (text_of text.new ≡ text_of text.old ++ spaced_word n) × (array_string_len text.new ≤ array_string_len text.old + word_room) }
{
    number(text, n);
    text.push_str(" ");
}

// Puts a number and the end of the line behind the text.
pub(crate) fn ended(text: &mut Text, n: u64)
    requires { array_string_len text.old + word_room ≤ room }
    ensures { (text_of text.new ≡ text_of text.old ++ ended_word n) × (array_string_len text.new ≤ array_string_len text.old + word_room) }
{
    number(text, n);
    text.push_str("\n");
}
