// What one edit does to a page: the characters, the attributes and the cursor. `rows` is the number of rows of the memory, 24 to 96.
#![tactic(auto)]

ghost use Rattle.std.specs.Prelude.{◌≡◌, ◌+◌, ◌*◌, ◌≤◌, ◌<◌, length};
ghost use Rattle.cursor.specs.Cursor.{cell_of};
ghost use Rattle.fields.specs.Fields.{marks, target};
ghost use Rattle.screen.specs.Page.{page};
ghost use Rattle.screen.specs.Whole.{Whole};
ghost use Rattle.screen.specs.Edits.{scrolled, line_fed, homed, homed_down, tabbed_in, back_tabbed_in, put, onward, typed_free, cell_after, typed_at_cell, typed_in, typed, display_cleared, line_cleared, char_deleted, row_inserted, row_deleted, mark_set, mark_turned, enhanced};

use cursor::Cursor;

// All rows move up by one, a blank row enters.
fn scroll(chars: &mut [u8], attrs: &mut [u8], rows: usize, cursor: Cursor) -> Cursor
    requires { Whole rows (page cursor chars.old attrs.old) }
    ensures { page result chars.new attrs.new ≡ scrolled (page cursor chars.old attrs.old) }
{
    cells::move_up(chars, 0, 32);
    cells::move_up(attrs, 0, 0);
    cursor
}

pub fn feed_line(
    chars: &mut [u8],
    attrs: &mut [u8],
    rows: usize,
    cursor: Cursor,
    format: bool,
) -> Cursor
    requires { Whole rows (page cursor chars.old attrs.old) }
    ensures { page result chars.new attrs.new ≡ line_fed rows format (page cursor chars.old attrs.old) }
{
    if cursor.row + 1 < rows {
        return cursor.go_down(rows);
    }
    if format {
        return cursor;
    }
    scroll(chars, attrs, rows, cursor)
}

// Home, to the first field whose mark is 1 to `highest`.
pub fn go_home(attrs: &[u8], format: bool, highest: u8) -> Cursor
    ensures { result ≡ homed format highest (marks attrs.now) }
{
    if format {
        let first = fields::first_start(attrs, highest);
        return match first {
            Some(k) => Cursor::home_to(k),
            None => Cursor::home_to(0),
        };
    }
    Cursor::home_to(0)
}

pub fn go_home_down(chars: &[u8], rows: usize, cursor: Cursor) -> Cursor
    requires { 0 < rows }
    ensures { result ≡ homed_down rows chars.now cursor }
{
    cursor.go(fields::row_under_text(chars, rows), 0)
}

// Tab with format on.
pub fn tab_in(attrs: &[u8], cursor: Cursor) -> Cursor
    requires { (cursor.row < 96) × (cursor.col < 80) × (cell_of cursor < length attrs.now) }
    ensures { result ≡ tabbed_in (marks attrs.now) cursor }
{
    let next = fields::next_start(attrs, cursor.cell());
    match next {
        Some(k) => cursor.go_to(k),
        None => cursor,
    }
}

// Back tab with format on.
pub fn back_tab_in(attrs: &[u8], cursor: Cursor) -> Cursor
    requires { (cursor.row < 96) × (cursor.col < 80) × (cell_of cursor < length attrs.now) }
    ensures { result ≡ back_tabbed_in (marks attrs.now) cursor }
{
    let before = fields::prev_start(attrs, cursor.cell());
    match before {
        Some(k) => cursor.go_to(k),
        None => cursor,
    }
}

// A character at a cell; with insert the cells up to `end` move right.
fn put_char(chars: &mut [u8], k: usize, end: usize, insert: bool, v: u8)
    requires { (k < end) × (end ≤ length chars.old) }
    ensures { chars.new ≡ put insert chars.old k end v }
{
    if insert {
        cells::shift_right(chars, k, end, v);
    } else {
        chars[k] = v;
    }
}

// The cursor on to the next cell, from the last as a line feed with column 0.
fn go_onward(chars: &mut [u8], attrs: &mut [u8], rows: usize, cursor: Cursor) -> Cursor
    requires { Whole rows (page cursor chars.old attrs.old) }
    ensures { page result chars.new attrs.new ≡ onward rows (page cursor chars.old attrs.old) }
{
    let next = cursor.cell() + 1;
    if next < rows * 80 {
        return cursor.go_to(next);
    }
    feed_line(chars, attrs, rows, cursor, false).go_in(0)
}

// Text with format off.
fn type_free(
    chars: &mut [u8],
    attrs: &mut [u8],
    rows: usize,
    cursor: Cursor,
    insert: bool,
    v: u8,
) -> Cursor
    requires { Whole rows (page cursor chars.old attrs.old) }
    ensures { page result chars.new attrs.new ≡ typed_free rows insert v (page cursor chars.old attrs.old) }
{
    let k = cursor.cell();
    put_char(chars, k, k / 80 * 80 + 80, insert, v);
    go_onward(chars, attrs, rows, cursor)
}

// The cell to go to after text at a cell of a field: only a text that leaves its field looks beyond the row.
fn cell_after(attrs: &[u8], rows: usize, k: usize) -> usize
    requires { (length attrs.now ≡ rows * 80) × (k < rows * 80) × (rows ≤ 96) }
    ensures { result ≡ cell_after (marks attrs.now) k }
{
    let end = fields::field_end(attrs, k);
    if k + 1 < end {
        return k + 1;
    }
    let next = fields::next_start(attrs, k);
    match next {
        Some(i) => i,
        None => k,
    }
}

// Text at an unprotected cell.
fn type_at(
    chars: &mut [u8],
    attrs: &[u8],
    rows: usize,
    cursor: Cursor,
    insert: bool,
    v: u8,
    k: usize,
) -> Cursor
    requires whole { Whole rows (page cursor chars.old attrs.now) }
    requires inside { k < rows * 80 }
    ensures { page result chars.new attrs.now ≡ typed_at_cell insert v k (page cursor chars.old attrs.now) }
{
    let end = fields::field_end(attrs, k);
    put_char(chars, k, end, insert, v);
    cursor.go_to(cell_after(attrs, rows, k))
}

// Text with format on.
fn type_in(
    chars: &mut [u8],
    attrs: &[u8],
    rows: usize,
    cursor: Cursor,
    insert: bool,
    v: u8,
) -> Cursor
    requires { Whole rows (page cursor chars.old attrs.now) }
    ensures { page result chars.new attrs.now ≡ typed_in insert v (target (marks attrs.now) (cell_of cursor)) (page cursor chars.old attrs.now) }
{
    let to = fields::find_target(attrs, cursor.cell());
    match to {
        Some(k) => {
            let kind = fields::kind_at(attrs, k);
            if fields::allows(kind, v) {
                return type_at(chars, attrs, rows, cursor, insert, v, k);
            }
            cursor
        }
        None => cursor,
    }
}

pub fn type_char(
    chars: &mut [u8],
    attrs: &mut [u8],
    rows: usize,
    cursor: Cursor,
    format: bool,
    insert: bool,
    v: u8,
) -> Cursor
    requires { Whole rows (page cursor chars.old attrs.old) }
    ensures { page result chars.new attrs.new ≡ typed rows format insert v (page cursor chars.old attrs.old) }
{
    if format {
        return type_in(chars, attrs, rows, cursor, insert, v);
    }
    type_free(chars, attrs, rows, cursor, insert, v)
}

pub fn clear_display(
    chars: &mut [u8],
    attrs: &mut [u8],
    rows: usize,
    cursor: Cursor,
    format: bool,
) -> Cursor
    requires { Whole rows (page cursor chars.old attrs.old) }
    ensures { page result chars.new attrs.new ≡ display_cleared format (page cursor chars.old attrs.old) }
{
    let k = cursor.cell();
    if format {
        clearing::clear_unprotected(chars, attrs, k);
        return cursor;
    }
    let end = rows * 80;
    cells::fill(chars, k, end, 32);
    cells::fill(attrs, k, end, 0);
    cursor
}

pub fn clear_line(
    chars: &mut [u8],
    attrs: &mut [u8],
    rows: usize,
    cursor: Cursor,
    format: bool,
) -> Cursor
    requires { Whole rows (page cursor chars.old attrs.old) }
    ensures { page result chars.new attrs.new ≡ line_cleared format (page cursor chars.old attrs.old) }
{
    let k = cursor.cell();
    if format {
        if fields::is_unprotected(attrs, k) {
            clearing::clear_rest(chars, attrs, k);
        }
        return cursor;
    }
    let end = k / 80 * 80 + 80;
    cells::fill(chars, k, end, 32);
    cells::fill(attrs, k, end, 0);
    cursor
}

pub fn delete_char(chars: &mut [u8], attrs: &[u8], rows: usize, cursor: Cursor, format: bool)
    requires { Whole rows (page cursor chars.old attrs.now) }
    ensures { page cursor chars.new attrs.now ≡ char_deleted format (page cursor chars.old attrs.now) }
{
    let k = cursor.cell();
    if format {
        if fields::is_unprotected(attrs, k) {
            let end = fields::field_end(attrs, k);
            cells::shift_left(chars, k, end, 32);
        }
        return;
    }
    cells::shift_left(chars, k, k / 80 * 80 + 80, 32);
}

pub fn insert_row(
    chars: &mut [u8],
    attrs: &mut [u8],
    rows: usize,
    cursor: Cursor,
    format: bool,
) -> Cursor
    requires { Whole rows (page cursor chars.old attrs.old) }
    ensures { page result chars.new attrs.new ≡ row_inserted format (page cursor chars.old attrs.old) }
{
    if format {
        return cursor;
    }
    let from = cursor.row * 80;
    cells::move_down(chars, from, 32);
    cells::move_down(attrs, from, 0);
    cursor.go_in(0)
}

pub fn delete_row(
    chars: &mut [u8],
    attrs: &mut [u8],
    rows: usize,
    cursor: Cursor,
    format: bool,
) -> Cursor
    requires { Whole rows (page cursor chars.old attrs.old) }
    ensures { page result chars.new attrs.new ≡ row_deleted format (page cursor chars.old attrs.old) }
{
    if format {
        return cursor;
    }
    let from = cursor.row * 80;
    cells::move_up(chars, from, 32);
    cells::move_up(attrs, from, 0);
    cursor.go_in(0)
}

// A mark at a cell, its enhancement kept.
pub fn set_mark(attrs: &mut [u8], format: bool, m: u8, k: usize)
    requires { (k < length attrs.old) × (m < 16) }
    ensures { attrs.new ≡ mark_set format m attrs.old k }
{
    if format {
        return;
    }
    attrs[k] = attrs[k] / 16 * 16 + m;
}

// A mark 1 to 3 at a cell turned into another.
pub fn turn_mark(attrs: &mut [u8], format: bool, m: u8, k: usize)
    requires { (k < length attrs.old) × (m < 16) }
    ensures { attrs.new ≡ mark_turned format m attrs.old k }
{
    if fields::has_mark(attrs[k], 3) {
        set_mark(attrs, format, m, k);
    }
}

// An enhancement at a cell, its mark kept.
pub fn enhance(attrs: &mut [u8], format: bool, e: u8, k: usize)
    requires { (k < length attrs.old) × (e < 16) }
    ensures { attrs.new ≡ enhanced format e attrs.old k }
{
    if format {
        return;
    }
    attrs[k] = e * 16 + attrs[k] % 16;
}
