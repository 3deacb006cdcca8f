// The programs `session` and `show`: the files that they are asked for, one after the other, each from a fresh terminal.
#![tactic(auto)]

mod asked;

use asked::{Asked, Program, Word};
use printing::Output;
use std::io::{Stderr, Stdin, Stdout};
use std::rt::{Env, Files};

// The program `session`: for each record its number, its answer and its reply bytes; at the end the cursor's row, column and the window's top.
pub fn session(rt: &(impl Env + Files), stdin: Stdin, stdout: Stdout, stderr: Stderr) {
    let usage =
        b"usage: session [48] [plain] [FILE..]\nRuns session records, of standard input where no FILE is named, and prints the answer to each, from a terminal of 96 rows or, with 48, of 48.\nWith plain the host bytes are read by plain decisions and not by the table: the output is the same.\nWrite ./48 for a FILE named 48, ./plain for one named plain, ./-x for one named -x.\n";
    run_all(rt, stdin, stdout, stderr, Program::Session, usage);
}

// The program `show`: what the terminal holds after session records, or after a host stream, as a picture or raw; or the rows that each session record changes.
pub fn show(rt: &(impl Env + Files), stdin: Stdin, stdout: Stdout, stderr: Stderr) {
    let usage =
        b"usage: show [48] [host] [raw] [FILE..]\n       show [48] changes [FILE..]\nShows a terminal of 96 rows, or with 48 of 48 rows, after session records, or with host after a raw host stream, of standard input where no FILE is named; raw prints for scripts.\nWith changes it prints for each session record its number, its answer, how many rows it changed, the first of them (or the number of rows), and each of them.\nWrite ./raw for a FILE named raw, ./-x for one named -x.\n";
    run_all(rt, stdin, stdout, stderr, Program::Show, usage);
}

// Standard input, or each file that is named; where the words are not to be understood, how to use the program.
fn run_all(
    rt: &(impl Env + Files),
    mut stdin: Stdin,
    stdout: Stdout,
    stderr: Stderr,
    program: Program,
    usage: &[u8],
) {
    let Some(asked) = asked::find(rt, program) else {
        let _ = stderr.write_all(usage);
        return;
    };
    let mut out = Output::new(stdout, stderr);
    if asked.files == 0 {
        files::run(&mut out, asked.way, &mut stdin, b"standard input");
    } else {
        run_files(rt, &mut out, program, asked);
    }
    out.send();
}

// After a write that failed nothing more is run.
fn run_files(rt: &(impl Env + Files), out: &mut Output, program: Program, asked: Asked) {
    for i in 1..inputs::word_count(rt) {
        if asked::read(rt, program, i) == Word::File {
            run_file(rt, out, asked, i);
        }
        if !out.is_well() {
            return;
        }
    }
}

// The file that word `i` names.
fn run_file(rt: &(impl Env + Files), out: &mut Output, asked: Asked, i: usize) {
    match inputs::name(rt, i, &mut [0; 4096]) {
        Ok(name) => open(rt, out, asked, name),
        Err(error) => out.fail(b"a name of more than 4096 bytes", &error),
    }
}

fn open(rt: &impl Files, out: &mut Output, asked: Asked, name: &[u8]) {
    match inputs::open(rt, name) {
        Ok(mut file) => {
            inputs::print_name(out, asked.files, name);
            files::run(out, asked.way, &mut file, name);
        }
        Err(error) => out.fail(name, &error),
    }
}
