// Sessions: records of 84 bytes, run one after the other, and the lines that they print. `rows` is the number of rows of the terminal's memory, 24 to 96; `is_plain` is
// for the plain reader of host bytes, else the table reads them: what comes out is the same.
#![tactic(auto)]

ghost use Rattle.std.specs.Prelude.{◌≡◌, [], ◌∷◌, ◌++◌, ◌+◌, ◌*◌, ◌≤◌, length};
ghost use Rattle.cells.specs.Memory.{written};
ghost use Rattle.terminal.specs.State.{world};
ghost use Rattle.sessions.specs.Session.{next as Session·next, decimal, three};
ghost use Rattle.sessions.specs.Parts.{lines_left, records_run, ended, end_written};

use cursor::Cursor;
use terminal::{Size, Terminal};

// The bytes taken, the bytes written to the lines, the number of the next record, and the state afterwards.
#[derive(Clone, Copy)]
pub struct LinesAnswer {
    pub taken: usize,
    pub written: usize,
    pub number: u64,
    pub state: Terminal,
}

// A number in decimal and a byte behind it, from byte `at` on; the place past them.
fn write_number(lines: &mut [u8], at: usize, n: u64, behind: u8) -> usize
    requires { at + 21 ≤ length lines.old }
    ensures value { result ≡ at + length (decimal n ++ (behind ∷ [])) }
    ensures upper_bound { result ≤ at + 21 }
    ensures lines_after { lines.new ≡ written lines.old at (decimal n ++ (behind ∷ [])) }
{
    let mut text = [0u8; 20];
    let k = io::decimal(n, &mut text);
    cells::write_at(lines, at, &text[..k]);
    let last = at + k;
    lines[last] = behind;
    last + 1
}

// Three numbers in a line, from byte `at` on; the place past it.
fn write_three(lines: &mut [u8], at: usize, a: u64, b: u64, c: u64) -> usize
    requires { at + 63 ≤ length lines.old }
    ensures value { result ≡ at + length (three a b c) }
    ensures upper_bound { result ≤ at + 63 }
    ensures lines_after { lines.new ≡ written lines.old at (three a b c) }
{
    let second = write_number(lines, at, a, 32);
    let third = write_number(lines, second, b, 32);
    write_number(lines, third, c, 10)
}

// The number of the next record.
pub fn next(number: u64) -> u64
    ensures { result ≡ Session·next number }
{
    number.saturating_add(1)
}

// The records one after the other, with the reply buffer lent: it has room for the longest reply, and what it holds does not matter.
fn run_each(
    t: Terminal,
    rows: usize,
    chars: &mut [u8],
    attrs: &mut [u8],
    number: u64,
    bytes: &[u8],
    lines: &mut [u8],
    reply: &mut [u8],
    is_plain: bool,
) -> LinesAnswer
    requires { (24 ≤ rows) × (rows ≤ 96) × (length reply.old ≡ rows * 160) }
    ensures { lines_left result chars.new attrs.new lines.new ≡ records_run rows (world t chars.old attrs.old) number bytes.now lines.old }
{
    let mut u = t;
    let mut n = number;
    let mut taken = 0;
    let mut to = 0;
    for record in bytes.chunks(84) {
        if lines.len() - to < 63 {
            break;
        }
        let a = records::run_on(u, rows, chars, attrs, record, reply, is_plain);
        to = write_three(lines, to, n, a.answer as u64, a.replied as u64);
        u = a.state;
        n = next(n);
        taken += record.len();
    }
    LinesAnswer {
        taken,
        written: to,
        number: n,
        state: u,
    }
}

// The records of `bytes`, the first of them with this number, run one after the other; each one's line (record number, answer, reply bytes) goes to the start
// of `lines`, behind the one before it. A rest under 84 bytes is a record too, the short one: hand in parts of a session that end between records. It stops
// where all is taken, or where fewer than 63 bytes are left for a line: then empty `lines`, and call again with `&bytes[taken..]` and the number and the state
// that came back.
pub fn run_records_on(
    t: Terminal,
    rows: usize,
    chars: &mut [u8],
    attrs: &mut [u8],
    number: u64,
    bytes: &[u8],
    lines: &mut [u8],
    is_plain: bool,
) -> LinesAnswer
    requires { (24 ≤ rows) × (rows ≤ 96) }
    ensures { lines_left result chars.new attrs.new lines.new ≡ records_run rows (world t chars.old attrs.old) number bytes.now lines.old }
{
    let mut reply = [0u8; 15360];
    run_each(
        t,
        rows,
        chars,
        attrs,
        number,
        bytes,
        lines,
        &mut reply[..rows * 160],
        is_plain,
    )
}

// `run_records_on` in a memory of a size. Takes any state and any buffers.
pub fn run_records<S: Size>(
    t: Terminal,
    chars: &mut [u8],
    attrs: &mut [u8],
    number: u64,
    bytes: &[u8],
    lines: &mut [u8],
) -> LinesAnswer
    ensures { lines_left result chars.new attrs.new lines.new ≡ records_run S.size (world t chars.old attrs.old) number bytes.now lines.old }
{
    run_records_on(t, S::rows(), chars, attrs, number, bytes, lines, false)
}

// The end line, the word `end` and the cursor's row, column and the window's top, to the start of `line`; how many bytes it has. Nothing is written, and 0 is
// answered, where `line` has fewer than 67 bytes.
pub fn write_end(cursor: Cursor, line: &mut [u8]) -> usize
    ensures { ended result line.new ≡ end_written cursor line.old }
{
    if line.len() < 67 {
        return 0;
    }
    cells::write_at(line, 0, b"end ");
    write_three(
        line,
        4,
        cursor.row as u64,
        cursor.col as u64,
        cursor.top as u64,
    )
}
