// What stands behind the last record of a file: the terminal, or why the file could not be read.
#![tactic(auto)]

ghost use Rattle.std.specs.Prelude.{◌≡◌, ◌≤◌};
ghost use Rattle.endings.specs.Sizes.{size_rows};

use printing::Output;
use std::fmt;
use std::fmt::{Display, Formatter};
use std::io::Error;
use terminal::Terminal;

// A file of records or a host stream.
#[derive(Clone, Copy, PartialEq, Eq)]
pub enum Source {
    Records,
    Host,
}

// How a terminal is shown: as a picture, or in lines for scripts.
#[derive(Clone, Copy, PartialEq, Eq)]
pub enum Shown {
    Picture,
    Listing,
}

// What a file is asked for: the lines of a session, which are the same by the plain reader of host bytes; a terminal to be shown behind the file; or the rows that each
// session record changes.
#[derive(Clone, Copy, PartialEq, Eq)]
pub enum Task {
    Lines { is_plain: bool },
    Show(Source, Shown),
    Changes,
}

// The two sizes of a terminal's memory.
#[derive(Clone, Copy, PartialEq, Eq)]
pub enum Size {
    Rows48,
    Rows96,
}

impl Size {
    // The number of rows.
    pub fn rows(self) -> usize
        ensures value { result ≡ size_rows self }
        ensures lower_bound { (24 ≤ result) × (result ≤ 96) }
    {
        match self {
            Size::Rows48 => 48,
            Size::Rows96 => 96,
        }
    }
}

// What a file is asked for, of a terminal of which size.
#[derive(Clone, Copy, PartialEq, Eq)]
pub struct Way {
    pub task: Task,
    pub size: Size,
}

// A record of which the input has only the first bytes: its number, and how many they are.
#[derive(Clone, Copy, PartialEq, Eq)]
pub struct Rest {
    pub number: u64,
    pub size: usize,
}

impl Display for Rest {
    fn fmt<W: fmt::Write>(&self, f: &mut Formatter<W>) -> fmt::Result {
        let Rest { number, size } = *self;
        write!(
            f,
            "12: the input ends inside record {number}, after {size} of 84 bytes"
        )
    }
}

// A file that cannot be read to its end has no end line, no picture and no state. The line of replies to a host stream ends.
pub fn break_off(out: &mut Output, task: Task, name: &[u8], error: &Error) {
    if task == Task::Show(Source::Host, Shown::Listing) {
        out.text(b"\n");
    }
    out.fail(name, error);
}

// The picture, or the lines for scripts; before them that the input ends inside a record, of which a host stream has none. Behind the rows that the records change
// stands nothing more, and the end line of a session is not printed here.
pub fn finish(
    out: &mut Output,
    t: &Terminal,
    chars: &[u8],
    attrs: &[u8],
    task: Task,
    rest: Option<Rest>,
    name: &[u8],
) {
    match task {
        Task::Lines { .. } => {}
        Task::Changes => tell_rest(out, rest, name),
        Task::Show(source, Shown::Listing) => {
            match source {
                Source::Records => tell_rest(out, rest, name),
                Source::Host => out.text(b"\n"),
            }
            listing::print(out, t, chars, attrs);
        }
        Task::Show(source, Shown::Picture) => {
            if let (Source::Records, Some(rest)) = (source, rest) {
                writeln!(out, "{rest}");
            }
            picture::print(out, t, chars, attrs);
        }
    }
}

// That the input ends inside a record is told on standard error, behind the lines of the records.
fn tell_rest(out: &mut Output, rest: Option<Rest>, name: &[u8]) {
    if let Some(rest) = rest {
        out.tell(name, rest);
    }
}
