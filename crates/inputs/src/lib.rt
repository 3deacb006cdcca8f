// What a program reads: its words, a file's name before what is printed of it, and its bytes chunk by chunk.
#![tactic(auto)]

ghost use Rattle.std.specs.Prelude.{◌≡◌, ◌-◌, ◌%◌, ◌≤◌, ◌<◌, length, take, IfOk, IsNone, IsSome};
ghost use Rattle.std.specs.Io.KnownBytes.{Consumes, IsAtEnd};

use printing::Output;
use std::env::FillError;
use std::io::{Error, Read};
use std::rt::{Env, Files};
use std::{fs, io};

// Of several files each has its name before it.
pub fn print_name(out: &mut Output, files: usize, name: &[u8]) {
    if 1 < files {
        out.text(b"== ");
        out.text(name);
        out.text(b"\n");
    }
}

// How many words the program was started with, its own name among them.
pub fn word_count(rt: &impl Env) -> usize {
    (0..usize::MAX)
        .find(|i| matches!(rt.arg(*i, &mut []), Err(FillError::NotPresent)))
        .unwrap_or(usize::MAX)
}

// Word `i`, or as much of it as the bytes take; nothing where it is missing.
pub fn word<'a>(rt: &impl Env, i: usize, bytes: &'a mut [u8]) -> &'a [u8]
    ensures { length result.now ≤ length bytes.old }
{
    match rt.arg(i, bytes) {
        Ok(n) => &bytes[..n],
        Err(FillError::TooLong) => bytes,
        Err(FillError::NotPresent) => &[],
    }
}

// Linux's numbers of two errors: a name that is too long, and bytes that are no text in UTF-8.
const TOO_LONG: i32 = 36;

const NO_TEXT: i32 = 84;

// The name of a file, which word `i` is; one that does not fit is an error.
pub fn name<'a>(rt: &impl Env, i: usize, bytes: &'a mut [u8]) -> io::Result<&'a [u8]>
    ensures { IfOk result (λ word. length word.now ≤ length bytes.old) }
{
    match rt.arg(i, bytes) {
        Ok(n) => Ok(&bytes[..n]),
        Err(_) => Err(Error::from_raw_os_error(TOO_LONG)),
    }
}

// Opens a file for reading. A name that is not UTF-8 names none.
pub fn open<R: Files>(rt: &R, name: &[u8]) -> io::Result<R::File> {
    match str::from_utf8(name) {
        Ok(path) => fs::open(rt, path),
        Err(_) => Err(Error::from_raw_os_error(NO_TEXT)),
    }
}

// The bytes that were read, and why a read failed, if one did.
#[derive(Clone, Copy)]
pub struct Filled<'a> {
    pub bytes: &'a [u8],
    pub failure: Option<Error>,
}

impl<'a> Filled<'a> {
    // What is run of a chunk of records that have `each` bytes: where a read failed, its last record is no short one.
    pub fn whole(&self, each: usize) -> &'a [u8]
        requires { 1 ≤ each }
        ensures all { IsNone self.now.failure → result.now ≡ self.now.bytes.now }
        ensures cut { IsSome self.now.failure → result.now ≡ take (length self.now.bytes.now - length self.now.bytes.now % each) self.now.bytes.now }
    {
        let n = self.bytes.len();
        match self.failure {
            None => self.bytes,
            Some(_) => &self.bytes[..n - n % each],
        }
    }

    // Whether a file is over behind a chunk that could have had `most` bytes: it ends there, a read failed, or a write.
    pub fn is_over(&self, most: usize, out: &Output) -> bool {
        self.bytes.len() < most || !out.is_well()
    }
}

// Reads until the array is full, the file ends or a read fails: what was read are the file's next bytes, and where fewer than the array has were read and no read failed, it has no more.
// A `while`, since a read may give fewer bytes than there is room for.
pub fn fill<'a, R: Read>(file: &mut R, bytes: &'a mut [u8]) -> Filled<'a>
    ensures upper_bound { length result.bytes.now ≤ length bytes.old }
    ensures next { Consumes (R.remaining file.old) (R.remaining file.new) result.bytes.now }
    ensures end { IsNone result.failure → length result.bytes.now < length bytes.old → IsAtEnd (R.remaining file.new) }
{
    let mut size = 0;
    let mut failure = None;
    while size < bytes.len() {
        match file.read(&mut bytes[size..]) {
            Ok(0) => break,
            Ok(more) => size += more,
            Err(error) => {
                failure = Some(error);
                break;
            }
        }
    }
    Filled {
        bytes: &bytes[..size],
        failure,
    }
}
