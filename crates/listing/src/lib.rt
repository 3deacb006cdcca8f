// The terminal in lines for scripts: replies, the state and the memory; and its state in words.
#![tactic(auto)]

pub mod words;

ghost use Rattle.std.specs.Prelude.{◌≤◌};

use changes::Changes;
use printing::Output;
use terminal::Terminal;

// The state in one line, then the characters and attributes of each of the memory's rows in hexadecimal.
pub fn print(out: &mut Output, t: &Terminal, chars: &[u8], attrs: &[u8]) {
    print_state(out, t);
    let rows = chars.chunks(80).zip(attrs.chunks(80));
    for (row, (chars, attrs)) in rows.enumerate() {
        print_row(out, "chars", row, chars);
        print_row(out, "attrs", row, attrs);
    }
}

// The start of a line of reply bytes.
pub fn print_reply(out: &mut Output, number: u64) {
    write!(out, "reply {number}");
}

// Some bytes of a reply, a space before the first of the line.
pub fn print_part(out: &mut Output, reply: &[u8], is_first: bool) {
    if is_first && !reply.is_empty() {
        out.text(b" ");
    }
    out.hex(reply);
}

// The line of a record's changes: its number and its answer, how many rows changed, the first of them, or the number of rows, and each of them.
pub fn print_changes(
    out: &mut Output,
    number: u64,
    answer: u8,
    count: u32,
    first: u32,
    changes: Changes,
    rows: usize,
)
    requires { rows ≤ 96 }
{
    write!(out, "{number} {answer} {count} {first}");
    for row in 0..rows {
        if changes.has(row) {
            write!(out, " {row}");
        }
    }
    out.text(b"\n");
}

// The state: its flags and the tab stops a digit each, the rows that changed a bit each.
fn print_state(out: &mut Output, t: &Terminal) {
    print_place(out, t);
    print_reading(out, t);
    out.text(b" tabs ");
    for stop in &t.tabs {
        out.text(if *stop { b"1" } else { b"0" });
    }
    writeln!(out, " bits {:016x} {:016x}", t.changes.low, t.changes.high);
}

fn print_place(out: &mut Output, t: &Terminal) {
    write!(
        out,
        "state row {} col {} top {}",
        t.cursor.row, t.cursor.col, t.cursor.top
    );
    write!(
        out,
        " format {} insert {} lock {}",
        t.format as u8, t.insert as u8, t.lock as u8
    );
}

fn print_reading(out: &mut Output, t: &Terminal) {
    write!(out, " pending {} reading {}", t.pending, t.reading);
    write!(
        out,
        " sign {} digit {} value {}",
        t.number.sign, t.number.digit as u8, t.number.value
    );
}

fn print_row(out: &mut Output, word: &str, row: usize, cells: &[u8]) {
    write!(out, "{word} {row} ");
    out.hex(cells);
    out.text(b"\n");
}
