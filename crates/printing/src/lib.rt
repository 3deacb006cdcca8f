// Text on its way to standard output: it waits on a page, and goes out when that is full or is sent.
#![tactic(auto)]

mod reason;

ghost use Rattle.std.specs.Prelude.{◌≤◌};

use reason::Reason;
use std::fmt;
use std::fmt::Display;
use std::io::{Error, Result, Stderr, Stdout};

// The page, at whose start bytes wait (std's writers with a buffer ask for an allocator), whether every write so far was taken, where the text goes, and where a failure is told. After a write that failed nothing more is
// written.
#[derive(Clone, Copy)]
pub struct Output {
    page: [u8; 8192],
    waiting: usize,
    is_well: bool,
    stdout: Stdout,
    stderr: Stderr,
    ghost fits: { waiting ≤ 8192 },
}

impl Output {
    // Nothing waits, nothing failed.
    pub fn new(stdout: Stdout, stderr: Stderr) -> Output {
        Output {
            page: [0; 8192],
            waiting: 0,
            is_well: true,
            stdout,
            stderr,
        }
    }

    // Whether every write so far was taken.
    pub fn is_well(&self) -> bool {
        self.is_well
    }

    // Writes what waits. A write that fails is told on standard error.
    pub fn send(&mut self) {
        let n = self.waiting;
        self.waiting = 0;
        if self.is_well {
            let answer = self.stdout.write_all(&self.page[..n]);
            self.settle(answer);
        }
    }

    // Bytes as they are. More than a page of them are written at once.
    pub fn text(&mut self, bytes: &[u8]) {
        let start = self.waiting;
        let n = bytes.len();
        if n <= 8192 - start {
            self.waiting = start + n;
            for (cell, byte) in self.page[start..start + n].iter_mut().zip(bytes) {
                *cell = *byte;
            }
        } else {
            self.turn(bytes);
        }
    }

    // Bytes that the rest of the page is too short for: the page is sent, and they begin the next.
    fn turn(&mut self, bytes: &[u8]) {
        self.send();
        let n = bytes.len();
        if n <= 8192 {
            self.waiting = n;
            self.page[0..n].copy_from_slice(bytes);
        } else if self.is_well {
            let answer = self.stdout.write_all(bytes);
            self.settle(answer);
        }
    }

    // What a write answered: a failure is told, and is the last.
    fn settle(&mut self, answer: Result<()>) {
        if let Err(error) = answer {
            self.is_well = false;
            complain(
                self.stderr,
                b"the output could not be written",
                Reason(&error),
            );
        }
    }

    // A format's text, as `write!` asks for it. It has no answer, since a failure is told where it happens.
    pub fn write_fmt<D: Display + Drop>(&mut self, text: D) {
        let _ = fmt::Write::write(self, text);
    }

    // Bytes in lower-case hexadecimal, 40 of them at a time.
    pub fn hex(&mut self, bytes: &[u8]) {
        for part in bytes.chunks(40) {
            let mut pairs = [0u8; 80];
            spell(part, &mut pairs);
            self.text(&pairs[..2 * part.len().min(40)]);
        }
    }

    // Tells on standard error why a file cannot be read, behind what was printed before it.
    pub fn tell<D: Display + Drop>(&mut self, name: &[u8], why: D) {
        self.send();
        if self.is_well {
            complain(self.stderr, name, why);
        }
    }

    // The same of an error that a read gave.
    pub fn fail(&mut self, name: &[u8], error: &Error) {
        self.tell(name, Reason(error));
    }
}

impl fmt::Write for Output {
    fn write_str(&mut self, s: &str) -> fmt::Result {
        self.text(s.as_bytes());
        Ok(())
    }
}

// Writes a line to standard error: what failed, as the caller names it, a colon and why.
fn complain<D: Display + Drop>(stderr: Stderr, what: &[u8], why: D) {
    let _ = stderr.write_all(what);
    let _ = eprintln!(stderr; ": {why}");
}

// The digits of up to 40 bytes, two a byte, by a table of them: `{:02x}` takes five times as long.
fn spell(bytes: &[u8], pairs: &mut [u8; 80]) {
    let digits = b"0123456789abcdef";
    for (pair, byte) in pairs.chunks_exact_mut(2).zip(bytes) {
        pair[0] = digits[(byte / 16) as usize];
        pair[1] = digits[(byte % 16) as usize];
    }
}
