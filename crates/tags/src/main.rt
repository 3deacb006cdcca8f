// The program `tags`: runs the calls of host, operator and two readers that share a form, of the files named or of standard input, each from a fresh terminal, and prints the answer to
// each call. The test runs it on the example, with 96 rows and with 48, with files that end too soon among them, and a name that no file has.
#![tactic(auto)]

mod file;

use printing::Output;
use std::rt::{Env, Files};

fn main(rt: HostRuntime) {
    let count = inputs::word_count(&rt);
    if (1..count).any(|i| read(&rt, i) == Word::Bad) {
        let _ = rt.stderr().write_all(
            b"usage: tags [[48] FILE..]\nRuns the calls of host, operator and two readers, of standard input where no FILE is named, and prints the answer to each, from a terminal of 96 rows or, of the files behind the word 48, of 48.\nA FILE begins with the owner table, 256 bytes; then each call has 85: the reader's number, 0 for none, and a session record, of kind R where a reader reads a field back.\nWrite ./48 for a FILE named 48, ./-x for one named -x.\n",
        );
        return;
    }
    let mut out = Output::new(rt.stdout(), rt.stderr());
    let files = (1..count).filter(|i| read(&rt, *i) == Word::File).count();
    if files == 0 {
        let is_48 = (1..count).any(|i| read(&rt, i) == Word::Small);
        file::run(&mut out, is_48, &mut rt.stdin(), b"standard input");
    } else {
        run_files(&rt, &mut out, count, files);
    }
    out.send();
}

// What a word says: `Small` is for `48`, `Bad` for a word that begins with `-`.
#[derive(Clone, Copy, PartialEq, Eq)]
enum Word {
    File,
    Small,
    Bad,
}

fn read(rt: &impl Env, i: usize) -> Word {
    match inputs::word(rt, i, &mut [0; 8]) {
        b"48" => Word::Small,
        [b'-', ..] => Word::Bad,
        _ => Word::File,
    }
}

// Each file that is named. The word 48 holds for the files behind it. After a write that failed nothing more is run.
fn run_files(rt: &(impl Env + Files), out: &mut Output, count: usize, files: usize) {
    let mut is_48 = false;
    for i in 1..count {
        if read(rt, i) == Word::Small {
            is_48 = true;
        } else {
            run_file(rt, out, files, is_48, i);
        }
        if !out.is_well() {
            return;
        }
    }
}

// The file that word `i` names.
fn run_file(rt: &(impl Env + Files), out: &mut Output, files: usize, is_48: bool, i: usize) {
    match inputs::name(rt, i, &mut [0; 4096]) {
        Ok(name) => open(rt, out, files, is_48, name),
        Err(error) => out.fail(b"a name of more than 4096 bytes", &error),
    }
}

fn open(rt: &impl Files, out: &mut Output, files: usize, is_48: bool, name: &[u8]) {
    match inputs::open(rt, name) {
        Ok(mut file) => {
            inputs::print_name(out, files, name);
            file::run(out, is_48, &mut file, name);
        }
        Err(error) => out.fail(name, &error),
    }
}
