// One file, read to its end in chunks and run on a fresh terminal.
#![tactic(auto)]

use chunks::{Machine, ReplyLine};
use endings::{Rest, Shown, Source, Task, Way};
use printing::Output;
use std::io::{Read, Result};

// Reads the file and prints what is asked for; `name` is what a failure calls it.
pub fn run<R: Read>(out: &mut Output, way: Way, file: &mut R, name: &[u8]) {
    let mut chars = [32u8; 7680];
    let mut attrs = [0u8; 7680];
    let mut room = [0u8; 15360];
    let rows = way.size.rows();
    let cells = rows * 80;
    let mut machine = Machine::new(
        rows,
        &mut chars[..cells],
        &mut attrs[..cells],
        &mut room[..2 * cells],
    );
    match run_chunks(out, &mut machine, way.task, file) {
        Err(error) => endings::break_off(out, way.task, name, &error),
        Ok(rest) => finish(out, &mut machine, way.task, rest, name),
    }
}

// What is asked for, chunk by chunk; how many bytes stand behind the last record. The replies to a host stream are one line.
fn run_chunks<R: Read>(
    out: &mut Output,
    machine: &mut Machine,
    task: Task,
    file: &mut R,
) -> Result<usize> {
    match task {
        Task::Lines { is_plain } => read(out, machine, file, |out, machine, bytes| {
            machine.answer(out, bytes, is_plain)
        }),
        Task::Show(Source::Records, Shown::Picture) => {
            read(out, machine, file, |_, machine, bytes| machine.run(bytes))
        }
        Task::Show(Source::Records, Shown::Listing) => {
            read(out, machine, file, |out, machine, bytes| {
                machine.list_replies(out, bytes)
            })
        }
        Task::Show(Source::Host, Shown::Picture) => {
            read(out, machine, file, |_, machine, bytes| {
                machine.feed(bytes, |_| {})
            })
        }
        Task::Show(Source::Host, Shown::Listing) => {
            let mut line = ReplyLine::begin(out, 0);
            read(out, machine, file, |out, machine, bytes| {
                machine.feed(bytes, |reply| line.add(out, reply))
            })
        }
        Task::Changes => {
            machine.report();
            read(out, machine, file, |out, machine, bytes| {
                machine.list_changes(out, bytes)
            })
        }
    }
}

// Each chunk has 96 records; only the last may be shorter. The file is over where it ends, or a read fails, or a write.
fn read<R: Read, F: FnMut(&mut Output, &mut Machine, &[u8])>(
    out: &mut Output,
    machine: &mut Machine,
    file: &mut R,
    mut run_chunk: F,
) -> Result<usize>
    requires { F.IsAlwaysCallable run_chunk }
{
    let mut bytes = [0u8; 8064];
    for _ in 0..u64::MAX {
        let got = inputs::fill(file, &mut bytes);
        run_chunk(out, machine, got.whole(84));
        if let Some(error) = got.failure {
            return Err(error);
        }
        if got.is_over(8064, out) {
            return Ok(got.bytes.len() % 84);
        }
    }
    Ok(0)
}

// What stands behind the last record, of which `size` bytes more are there.
fn finish(out: &mut Output, machine: &mut Machine, task: Task, size: usize, name: &[u8]) {
    if let Task::Lines { .. } = task {
        machine.end(out);
        return;
    }
    let number = machine.number;
    let rest = (0 < size).then_some(Rest { number, size });
    endings::finish(
        out,
        &machine.state,
        machine.chars,
        machine.attrs,
        task,
        rest,
        name,
    );
}
