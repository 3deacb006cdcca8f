// One file: the owner table, then the calls, read to its end in chunks and run on a fresh terminal.
use calls::Machine;
use printing::Output;
use std::io::{Error, ErrorKind, Read, Result};

// Reads the file and prints a line a call, and the end line; `name` is what a failure calls it.
pub fn run<R: Read>(out: &mut Output, is_48: bool, file: &mut R, name: &[u8]) {
    let mut owners = [0u8; 256];
    let got = inputs::fill(file, &mut owners);
    let size = got.bytes.len();
    match got.failure {
        Some(error) => out.fail(name, &error),
        None if size < 256 => out.tell(
            name,
            format_args!("1: the owner table has 256 bytes, here are {size}"),
        ),
        None => run_calls(out, is_48, got.bytes, file, name),
    }
}

// The calls, of a terminal of 96 rows or of 48. A file that fails while it is read has no end line.
fn run_calls<R: Read>(out: &mut Output, is_48: bool, owners: &[u8], file: &mut R, name: &[u8]) {
    let mut chars = [32u8; 7680];
    let mut attrs = [0u8; 7680];
    let mut reply = [0u8; 15360];
    let rows = if is_48 { 48 } else { 96 };
    let cells = rows * 80;
    let mut machine = Machine::new(
        rows,
        &mut chars[..cells],
        &mut attrs[..cells],
        owners,
        &mut reply[..2 * cells],
    );
    match read(out, &mut machine, file) {
        Ok(()) => machine.end(out),
        Err(error) => out.fail(name, &error),
    }
}

// Chunk by chunk to the end; only the last call of a file may be short.
fn read<R: Read>(out: &mut Output, machine: &mut Machine, file: &mut R) -> Result<()> {
    let mut bytes = [0u8; 8160];
    for _ in 0..u64::MAX {
        let got = inputs::fill(file, &mut bytes);
        for call in got.whole(85).chunks(85) {
            machine.run(out, call);
        }
        if let Some(error) = got.failure {
            return Err(error);
        }
        if got.is_over(8160, out) {
            return Ok(());
        }
    }
    Err(Error::from(ErrorKind::FileTooLarge))
}
