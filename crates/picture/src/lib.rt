// The terminal as a picture in text: the state in words, then the rows with their fields and enhancements, the cursor and the window.
#![tactic(auto)]

use cursor::Cursor;
use printing::Output;
use std::array;
use terminal::Terminal;

// A row's characters, attributes, or what is printed of it.
type Row = [u8; 80];

// The whole picture.
pub fn print(out: &mut Output, t: &Terminal, chars: &[u8], attrs: &[u8]) {
    listing::words::print(out, t);
    print_ruler(out);
    print_rows(out, t.cursor, chars, attrs);
}

// The columns' tens and units.
fn print_ruler(out: &mut Output) {
    out.text(b"       0         1         2         3         4         5         6         7\n");
    out.text(
        b"       01234567890123456789012345678901234567890123456789012345678901234567890123456789\n",
    );
}

// The rows of the memory. Blank rows that hold neither a field nor the cursor are counted and left out.
fn print_rows(out: &mut Output, cursor: Cursor, chars: &[u8], attrs: &[u8]) {
    let (chars, _) = chars.as_chunks::<80>();
    let (attrs, _) = attrs.as_chunks::<80>();
    let mut left_out = 0;
    for (row, (chars, attrs)) in chars.iter().zip(attrs).enumerate() {
        if row != cursor.row && is_empty(chars, attrs) {
            left_out += 1;
        } else {
            print_left_out(out, left_out);
            left_out = 0;
            print_row(out, row, cursor, chars, attrs);
        }
    }
    print_left_out(out, left_out);
}

// Whether a row has blanks alone and no mark.
fn is_empty(chars: &Row, attrs: &Row) -> bool {
    *chars == [b' '; 80] && *attrs == [0; 80]
}

fn print_left_out(out: &mut Output, rows: usize) {
    match rows {
        0 => {}
        1 => writeln!(out, "       (1 blank row)"),
        _ => writeln!(out, "       ({rows} blank rows)"),
    }
}

// The row's number, behind `>` where the window shows it, its cells, the letters of its fields and of its enhancements, and `^` under the cursor.
fn print_row(out: &mut Output, row: usize, cursor: Cursor, chars: &Row, attrs: &Row) {
    let mark = if is_shown(row, cursor.top) { '>' } else { ' ' };
    let faces: Row = array::from_fn(|col| face(chars[col], fields::is_unprotected(attrs, col)));
    let kinds: Row = array::from_fn(|col| kind_letter(fields::kind_at(attrs, col)));
    write!(out, "{mark} {row:2}  |");
    out.text(&faces);
    out.text(b"|\n");
    print_below(out, &kinds);
    print_below(out, &attrs.map(enhancement_letter));
    if row == cursor.row {
        let pointer: Row = array::from_fn(|col| if col == cursor.col { b'^' } else { b' ' });
        print_below(out, &pointer);
    }
}

// Whether the window shows a row.
fn is_shown(row: usize, top: usize) -> bool {
    top <= row && row - top < 24
}

// A line below a row's cells, where it has any letter.
fn print_below(out: &mut Output, line: &Row) {
    if *line != [b' '; 80] {
        out.text(b"       ");
        out.text(line);
        out.text(b"\n");
    }
}

// What a cell looks like: its character, `_` for a blank of an unprotected field, `?` for a byte that has no character.
fn face(v: u8, is_unprotected: bool) -> u8 {
    match v {
        b' ' if is_unprotected => b'_',
        b' '..=b'~' => v,
        _ => b'?',
    }
}

// The letter of a kind of field, a blank for none.
fn kind_letter(kind: u8) -> u8 {
    match kind {
        1 => b'a',
        2 => b'l',
        3 => b'd',
        4 => b't',
        _ => b' ',
    }
}

// A to O, the letter that the host sets the enhancement with, a blank for none.
fn enhancement_letter(a: u8) -> u8 {
    match a / 16 {
        0 => b' ',
        n => b'@' + n,
    }
}
