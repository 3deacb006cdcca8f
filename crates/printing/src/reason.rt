// Why a call on a file failed, in words.
ghost use Rattle.std.specs.Prelude.{◌≡◌, ◌≤◌, length, take};

use std::fmt;
use std::fmt::{Display, Formatter};
use std::io::{Error, Write};

// An error's words. An error of the system's is printed with its number in parentheses behind them, which is left out.
#[derive(Clone, Copy)]
pub struct Reason<'a>(pub &'a Error);

impl<'a> Display for Reason<'a> {
    fn fmt<W: fmt::Write>(&self, f: &mut Formatter<W>) -> fmt::Result {
        let error = self.0;
        let mut words = [0u8; 256];
        let mut room: &mut [u8] = &mut words;
        let _ = write!(room, "{error}");
        let left = room.len();
        let size = 256 - left.min(256);
        let text = str::from_utf8(&words[..size]).unwrap_or("");
        match error.raw_os_error() {
            Some(_) => f.write_str(before_number(text)),
            None => f.write_str(text),
        }
    }
}

// What stands before the last blank with a `(` behind it, or all where there is none.
fn before_number(text: &str) -> &str
    ensures upper_bound { length result.now ≤ length text.now }
    ensures beginning { result.now ≡ take (length result.now) text.now }
{
    match text.rsplit_once(" (") {
        Some((words, _)) => words,
        None => text,
    }
}
