// What the words behind a program's name ask for.
use endings::{Shown, Size, Source, Task, Way};
use std::rt::Env;

// The program that the words are for.
#[derive(Clone, Copy, PartialEq, Eq)]
pub enum Program {
    Session,
    Show,
}

// What a word says: `Small` is for `48`, `Bad` for a word that begins with `-`.
#[derive(Clone, Copy, PartialEq, Eq)]
pub enum Word {
    File,
    Raw,
    Host,
    Changes,
    Plain,
    Small,
    Bad,
}

// What word `i` says. `session` takes `raw`, `host` and `changes` for files, and `show` takes `plain` for one.
pub fn read(rt: &impl Env, program: Program, i: usize) -> Word {
    match (program, inputs::word(rt, i, &mut [0; 8])) {
        (_, [b'-', ..]) => Word::Bad,
        (_, b"48") => Word::Small,
        (Program::Session, b"plain") => Word::Plain,
        (Program::Show, b"raw") => Word::Raw,
        (Program::Show, b"host") => Word::Host,
        (Program::Show, b"changes") => Word::Changes,
        _ => Word::File,
    }
}

// How many files are named, and what each is asked for.
#[derive(Clone, Copy)]
pub struct Asked {
    pub files: usize,
    pub way: Way,
}

// What all words ask for together, each read once; nothing where one is bad, or `changes` stands beside `host` or `raw`.
pub fn find(rt: &impl Env, program: Program) -> Option<Asked> {
    let mut files = 0usize;
    let mut source = Source::Records;
    let mut shown = Shown::Picture;
    let mut size = Size::Rows96;
    let mut is_plain = false;
    let mut is_changes = false;
    for i in 1..inputs::word_count(rt) {
        match read(rt, program, i) {
            Word::File => files = files.saturating_add(1),
            Word::Raw => shown = Shown::Listing,
            Word::Host => source = Source::Host,
            Word::Changes => is_changes = true,
            Word::Plain => is_plain = true,
            Word::Small => size = Size::Rows48,
            Word::Bad => return None,
        }
    }
    let task = match (program, is_changes, source, shown) {
        (Program::Session, ..) => Task::Lines { is_plain },
        (Program::Show, false, ..) => Task::Show(source, shown),
        (Program::Show, true, Source::Records, Shown::Picture) => Task::Changes,
        (Program::Show, true, ..) => return None,
    };
    Some(Asked {
        files,
        way: Way { task, size },
    })
}
