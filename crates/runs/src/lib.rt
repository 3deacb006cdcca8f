// Runs of host bytes that are done at once: text that is copied to its cells, and sequences that are followed to their end.
#![tactic(auto)]

ghost use Rattle.std.specs.Prelude.{◌≡◌, ◌+◌, ◌≤◌, ◌<◌, true, length, get_or, drop};
ghost use Rattle.cursor.specs.Cursor.{InPlace};
ghost use Rattle.fields.specs.Fields.{end_of_row};
ghost use Rattle.reading.specs.Action.{number_of};
ghost use Rattle.reading.specs.Reading.{clear, settled, counted, next_reading, SoundNumber};
ghost use Rattle.table.specs.Table.{numbers_of, Tabled};
ghost use Rattle.runs.specs.Texts.{is_text, Copied};
ghost use Rattle.runs.specs.Sequences.{reader, turned, followed};

use cursor::Cursor;
use reading::{Action, Number};

// How many bytes of text were copied, and whether a cell changed: each tells its own, so this is no `Option`.
#[derive(Clone, Copy)]
pub struct Stretch {
    pub count: usize,
    pub changed: bool,
}

// Whether a byte is text.
pub fn is_text(byte: u8) -> bool
    ensures { result ≡ is_text byte }
{
    cells::is_within(32, 126, byte % 128)
}

// How many bytes a run of text from `cell` on may have: no more than are left, than there is room for, and than reach the row's end.
fn bound(left: usize, room: usize, cell: usize) -> usize
    requires { (0 < left) × (0 < room) }
    ensures { (0 < result) × (result ≤ left) × (result ≤ room) × (cell + result ≤ end_of_row cell) }
{
    left.min(room).min(80 - cell % 80)
}

// The run of text that begins at byte `from`, to the cells from `cell` on, up to the row's end or the last cell but one.
pub fn copy_text(chars: &mut [u8], bytes: &[u8], from: usize, cell: usize) -> Stretch
    requires { (from < length bytes.now) × (cell + 1 < length chars.old) × (is_text (get_or bytes.now from 0) ≡ true) }
    ensures { Copied bytes.now from chars.old cell result chars.new }
{
    let most = bound(bytes.len() - from, chars.len() - 1 - cell, cell);
    let mut changed = false;
    for n in 0..most {
        let b = bytes[from + n];
        if !is_text(b) {
            return Stretch { count: n, changed };
        }
        if chars[cell + n] != b % 128 {
            changed = true;
        }
        chars[cell + n] = b % 128;
    }
    Stretch {
        count: most,
        changed,
    }
}

// Where the reading of sequences stands: the cursor, the number, the reading state, a number as in the terminal's state, and the place of the next byte.
#[derive(Clone, Copy)]
pub struct Reader {
    pub cursor: Cursor,
    pub number: Number,
    pub reading: u8,
    pub at: usize,
}

// The reader where neither sign nor digit came yet.
fn begin_number(c: Cursor, reading: u8, at: usize) -> Reader
    ensures { result ≡ reader c clear reading at }
{
    Reader {
        cursor: c,
        number: Number::default(),
        reading,
        at,
    }
}

// The reader after a sign: the first begins the number, another ends the sequence.
fn sign(r: Reader, a: Action, b: u8, next: usize) -> Reader
    requires { r.number.value ≤ 999 }
    ensures { result ≡ reader r.cursor (counted (settled (number_of a) r.number) b r.number) (next_reading (settled (number_of a) r.number)) next }
{
    let c = r.cursor;
    let n = r.number;
    let s = n.settle(a);
    Reader {
        cursor: c,
        number: n.count(s, b),
        reading: reading::next_reading(s),
        at: next,
    }
}

// The reader after a byte: `a` its action in the table, `b` the byte below 128, `next` the place of the byte after it. A byte of no sequence leaves the reader as it is.
#[tactic(auto, unfolding(crate::specs::Sequences::turned, crate::specs::Sequences::in_sequence, crate::specs::Sequences::addressed, reading::specs::Reading::settled, reading::specs::Reading::counted, reading::specs::Reading::next_reading))]
fn turn(r: Reader, rows: usize, a: Action, b: u8, next: usize) -> Reader
    requires bounds { (rows ≤ 96) × (r.number.value ≤ 999) }
    requires in_place { InPlace rows r.cursor }
    ensures { result ≡ turned rows (number_of a) b next r }
{
    let c = r.cursor;
    let n = r.number;
    match a {
        Action::Rest => begin_number(c, 0, next),
        Action::Esc => begin_number(c, 1, next),
        Action::ToGroup => begin_number(c, 2, next),
        Action::ToSet => begin_number(c, 6, next),
        Action::ToCursor => begin_number(c, 3, next),
        Action::ToEnhance => begin_number(c, 4, next),
        Action::ToOther => begin_number(c, 5, next),
        Action::Plus | Action::Minus => sign(r, a, b, next),
        Action::Digit => Reader {
            cursor: c,
            number: n.count(Action::Digit, b),
            reading: 3,
            at: next,
        },
        Action::ColumnOn => begin_number(c.to_column(n.sign, n.value), 3, next),
        Action::ColumnEnd => begin_number(c.to_column(n.sign, n.value), 0, next),
        Action::RowOn => begin_number(c.to_row(rows, n.sign, n.value), 3, next),
        Action::RowEnd => begin_number(c.to_row(rows, n.sign, n.value), 0, next),
        Action::WindowOn => begin_number(c.to_window_row(rows, n.sign, n.value), 3, next),
        Action::WindowEnd => begin_number(c.to_window_row(rows, n.sign, n.value), 0, next),
        Action::Stay => begin_number(c, 5, next),
        _ => r,
    }
}

// The bytes of sequences from byte `from` on, up to the first whose action is of none.
pub fn follow(
    c: Cursor,
    n: Number,
    s: u8,
    rows: usize,
    table: &[[Action; 128]; 7],
    bytes: &[u8],
    from: usize,
) -> Reader
    requires bounds { (rows ≤ 96) × (s < 7) × (from ≤ length bytes.now) }
    requires sound { SoundNumber s n }
    requires in_place { InPlace rows c }
    requires tabled { Tabled (numbers_of table.now) }
    ensures { result ≡ followed rows (drop from bytes.now) (reader c n s from) }
{
    let mut r = Reader {
        cursor: c,
        number: n,
        reading: s,
        at: from,
    };
    // By hand: the place is part of the reader, and `turn` tells by it whether the byte was taken.
    while r.at < bytes.len() {
        let i = r.at;
        let byte = bytes[i];
        let a = table::action(table, r.reading, byte);
        let q = turn(r, rows, a, byte % 128, i + 1);
        if q.at == i {
            return r;
        }
        r = q;
    }
    r
}
