// Taking in standard input.
ghost use Rattle.std.specs.Prelude.{◌≡◌, true, length};
ghost use Rattle.io.specs.Counts.{IsPrefixLen};

use crate::Input;

// The file descriptor of standard input.
const STDIN_FILENO: i32 = 0;

// Fills the file from standard input, until it is full, the input ends or a read fails. Where the file is full one byte more is
// tried, and longer says that it came. What was read, no contract of the kit can say: the promise is that the length is within
// the file, and that longer is said of a full file only.
pub fn take_in(file: &mut [u8]) -> Input
    ensures { IsPrefixLen result.length file.new × (result.longer ≡ true → result.length ≡ length file.new) }
{
    let length = io::read_full(STDIN_FILENO, file);
    if length < file.len() {
        return Input {
            length,
            longer: false,
        };
    }
    let mut more = [0u8; 1];
    let came = io::read_full(STDIN_FILENO, &mut more);
    Input {
        length,
        longer: 0 < came,
    }
}
