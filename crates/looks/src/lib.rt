// What an edit will change, told before it writes: nothing here writes.
#![tactic(auto)]

ghost use Rattle.std.specs.Prelude.{◌≡◌, ℕ, Bool, false, List, ◌+◌, ◌-◌, ◌*◌, ◌/◌, ◌≤◌, ◌<◌, max, length, get_or, set, drop};
ghost use Rattle.cells.specs.Memory.{filled, changed_where, moved_up, moved_down};
ghost use Rattle.fields.specs.Fields.{marks, stripped, unprotected, field_end, target};
ghost use Rattle.cursor.specs.Cursor.{cell_of};
ghost use Rattle.screen.specs.Page.{page};
ghost use Rattle.screen.specs.Whole.{Whole};
ghost use Rattle.screen.specs.Edits.{line_fed, put, typed_free, typed_in, typed, display_cleared, line_cleared, char_deleted, row_inserted, row_deleted, mark_set, mark_turned, enhanced};
ghost use Rattle.looks.specs.Looks.{changed};
ghost use Rattle.changes.specs.Sets.{set_of};
ghost use Rattle.changes.specs.Differing.{differs, differing_both};

use changes::Changes;
use cursor::Cursor;

// ---- the rows that change, of both memories, from the last row to the first

// The last row, and the last but one where row `at` is not the last: the rows from there on.
fn look_ends(chars: &[u8], attrs: &[u8], rows: usize, at: usize, end: u8) -> Changes
    requires { (length chars.now ≡ rows * 80) × (length attrs.now ≡ rows * 80) × (rows ≤ 96) × (at < rows) }
    ensures { result ≡ set_of (drop (max at (rows - 2)) (differing_both rows chars.now attrs.now (moved_up (set chars.now (rows * 80 - 1) end) (at * 80) 32) (moved_up attrs.now (at * 80) 0))) }
{
    let first = (rows - 1) * 80;
    let found = Changes::none().behind(compare::line_differs(chars, attrs, first, first + 80));
    if at + 1 == rows {
        return found;
    }
    found.behind(compare::row_second_differs(chars, attrs, rows, end))
}

// Where the rows end that have two rows below them, from row `at` on.
fn end_of_inner(rows: usize, at: usize) -> usize
    requires { (rows ≤ 96) × (at < rows) }
    ensures { result ≡ max at (rows - 2) * 80 }
{
    if at + 2 < rows {
        return (rows - 2) * 80;
    }
    at * 80
}

// Row `at` goes, the rows below it move up, a blank row enters. The last character counts as `end`: text that is written there and then scrolls.
// Most rows differ in their first cell: such rows cost a short loop of their own, and since both loops go on from the same row, they count it themselves.
fn look_up(chars: &[u8], attrs: &[u8], rows: usize, at: usize, end: u8) -> Changes
    requires { (length chars.now ≡ rows * 80) × (length attrs.now ≡ rows * 80) × (rows ≤ 96) × (at < rows) }
    ensures { result ≡ set_of (differing_both rows chars.now attrs.now (moved_up (set chars.now (rows * 80 - 1) end) (at * 80) 32) (moved_up attrs.now (at * 80) 0)) }
{
    let top = at * 80;
    let mut found = look_ends(chars, attrs, rows, at, end);
    let mut k = end_of_inner(rows, at);
    while top < k {
        while chars[k - 80] != chars[k] {
            k -= 80;
            found = found.behind(true);
            if k <= top {
                break;
            }
        }
        if top < k {
            k -= 80;
            found = found.behind(compare::row_copy_differs(chars, attrs, k));
        }
    }
    for _above in (0..at).rev() {
        found = found.behind(false);
    }
    found
}

// The rows that differ by a test, each asked once, the last row first.
fn gather<F: Fn(usize) -> bool>(rows: usize, differs: F) -> Changes
    requires few { rows ≤ 96 }
    requires callable { (r : ℕ) → r < rows → F.pre differs r }
    ensures { (l : List Bool) → length l ≡ rows → ((r : ℕ) (on : Bool) → r < rows → F.post differs r on → on ≡ get_or l r false) → result ≡ set_of l }
{
    let mut found = Changes::none();
    for r in (0..rows).rev() {
        found = found.behind(differs(r));
    }
    found
}

// A blank row enters at row `at`, the rows from there on move down.
fn look_down(chars: &[u8], attrs: &[u8], rows: usize, at: usize) -> Changes
    requires { (length chars.now ≡ rows * 80) × (length attrs.now ≡ rows * 80) × (rows ≤ 96) × (at < rows) }
    ensures { result ≡ set_of (differing_both rows chars.now attrs.now (moved_down chars.now (at * 80) 32) (moved_down attrs.now (at * 80) 0)) }
{
    gather(
        rows,
        |r| compare::row_down_differs(chars, attrs, rows, at, r),
    )
}

// All cells from cell `k` on become blank with attribute 0.
pub fn look_clear(chars: &[u8], attrs: &[u8], rows: usize, k: usize) -> Changes
    requires { (length chars.now ≡ rows * 80) × (length attrs.now ≡ rows * 80) × (rows ≤ 96) }
    ensures { result ≡ set_of (differing_both rows chars.now attrs.now (filled chars.now k (rows * 80) 32) (filled attrs.now k (rows * 80) 0)) }
{
    gather(
        rows,
        |r| compare::row_clear_differs(chars, attrs, rows, k, r),
    )
}

// The unprotected cells from cell `k` on become blank without enhancement.
fn look_wipe(chars: &[u8], attrs: &[u8], rows: usize, k: usize) -> Changes
    requires { (length chars.now ≡ rows * 80) × (length attrs.now ≡ rows * 80) × (rows ≤ 96) }
    ensures { result ≡ set_of (differing_both rows chars.now attrs.now (changed_where chars.now k (unprotected (marks attrs.now)) (λ v. 32)) (changed_where attrs.now k (unprotected (marks attrs.now)) stripped)) }
{
    gather(
        rows,
        |r| compare::row_wipe_differs(chars, attrs, rows, k, r),
    )
}

// ---- the rows that an edit of a page changes

// A character at a cell; with insert the cells up to `end` move right.
fn put_differs(chars: &[u8], k: usize, end: usize, insert: bool, v: u8) -> bool
    requires { (k < end) × (end ≤ length chars.now) }
    ensures { result ≡ differs chars.now (put insert chars.now k end v) }
{
    if insert {
        return compare::shift_right_differs(chars, k, end, v);
    }
    chars[k] != v
}

// The same at a cell of a field, whose end matters with insert alone.
fn put_in_differs(chars: &[u8], attrs: &[u8], k: usize, insert: bool, v: u8) -> bool
    requires { (k / 80 * 80 + 80 ≤ length chars.now) × (length attrs.now ≡ length chars.now) }
    ensures { result ≡ differs chars.now (put insert chars.now k (field_end (marks attrs.now) k) v) }
{
    if insert {
        return compare::shift_right_differs(chars, k, fields::field_end(attrs, k), v);
    }
    chars[k] != v
}

// Text with format off: from the last cell the memory scrolls.
fn look_free(
    chars: &[u8],
    attrs: &[u8],
    rows: usize,
    cursor: Cursor,
    insert: bool,
    v: u8,
) -> Changes
    requires { Whole rows (page cursor chars.now attrs.now) }
    ensures { result ≡ set_of (changed rows (page cursor chars.now attrs.now) (typed_free rows insert v (page cursor chars.now attrs.now))) }
{
    let k = cursor.cell();
    if k + 1 < rows * 80 {
        return Changes::one(
            cursor.row,
            put_differs(chars, k, k / 80 * 80 + 80, insert, v),
        );
    }
    look_up(chars, attrs, rows, 0, v)
}

// Text with format on.
fn look_in(chars: &[u8], attrs: &[u8], rows: usize, cursor: Cursor, insert: bool, v: u8) -> Changes
    requires { Whole rows (page cursor chars.now attrs.now) }
    ensures { result ≡ set_of (changed rows (page cursor chars.now attrs.now) (typed_in insert v (target (marks attrs.now) (cell_of cursor)) (page cursor chars.now attrs.now))) }
{
    let to = fields::find_target(attrs, cursor.cell());
    match to {
        Some(k) => {
            let kind = fields::kind_at(attrs, k);
            if fields::allows(kind, v) {
                return Changes::one(k / 80, put_in_differs(chars, attrs, k, insert, v));
            }
            Changes::none()
        }
        None => Changes::none(),
    }
}

pub fn look_type(
    chars: &[u8],
    attrs: &[u8],
    rows: usize,
    cursor: Cursor,
    format: bool,
    insert: bool,
    v: u8,
) -> Changes
    requires { Whole rows (page cursor chars.now attrs.now) }
    ensures { result ≡ set_of (changed rows (page cursor chars.now attrs.now) (typed rows format insert v (page cursor chars.now attrs.now))) }
{
    if format {
        return look_in(chars, attrs, rows, cursor, insert, v);
    }
    look_free(chars, attrs, rows, cursor, insert, v)
}

pub fn look_feed(chars: &[u8], attrs: &[u8], rows: usize, cursor: Cursor, format: bool) -> Changes
    requires { Whole rows (page cursor chars.now attrs.now) }
    ensures { result ≡ set_of (changed rows (page cursor chars.now attrs.now) (line_fed rows format (page cursor chars.now attrs.now))) }
{
    if cursor.row + 1 < rows {
        return Changes::none();
    }
    if format {
        return Changes::none();
    }
    look_up(chars, attrs, rows, 0, chars[rows * 80 - 1])
}

pub fn look_clear_display(
    chars: &[u8],
    attrs: &[u8],
    rows: usize,
    cursor: Cursor,
    format: bool,
) -> Changes
    requires { Whole rows (page cursor chars.now attrs.now) }
    ensures { result ≡ set_of (changed rows (page cursor chars.now attrs.now) (display_cleared format (page cursor chars.now attrs.now))) }
{
    let k = cursor.cell();
    if format {
        return look_wipe(chars, attrs, rows, k);
    }
    look_clear(chars, attrs, rows, k)
}

pub fn look_clear_line(
    chars: &[u8],
    attrs: &[u8],
    rows: usize,
    cursor: Cursor,
    format: bool,
) -> Changes
    requires { Whole rows (page cursor chars.now attrs.now) }
    ensures { result ≡ set_of (changed rows (page cursor chars.now attrs.now) (line_cleared format (page cursor chars.now attrs.now))) }
{
    let k = cursor.cell();
    if format {
        if fields::is_unprotected(attrs, k) {
            let end = fields::field_end(attrs, k);
            return Changes::one(cursor.row, compare::rest_differs(chars, attrs, k, end));
        }
        return Changes::none();
    }
    Changes::one(
        cursor.row,
        compare::line_differs(chars, attrs, k, k / 80 * 80 + 80),
    )
}

pub fn look_delete_char(
    chars: &[u8],
    attrs: &[u8],
    rows: usize,
    cursor: Cursor,
    format: bool,
) -> Changes
    requires { Whole rows (page cursor chars.now attrs.now) }
    ensures { result ≡ set_of (changed rows (page cursor chars.now attrs.now) (char_deleted format (page cursor chars.now attrs.now))) }
{
    let k = cursor.cell();
    if format {
        if fields::is_unprotected(attrs, k) {
            let end = fields::field_end(attrs, k);
            return Changes::one(cursor.row, compare::shift_left_differs(chars, k, end, 32));
        }
        return Changes::none();
    }
    Changes::one(
        cursor.row,
        compare::shift_left_differs(chars, k, k / 80 * 80 + 80, 32),
    )
}

pub fn look_insert_row(
    chars: &[u8],
    attrs: &[u8],
    rows: usize,
    cursor: Cursor,
    format: bool,
) -> Changes
    requires { Whole rows (page cursor chars.now attrs.now) }
    ensures { result ≡ set_of (changed rows (page cursor chars.now attrs.now) (row_inserted format (page cursor chars.now attrs.now))) }
{
    if format {
        return Changes::none();
    }
    look_down(chars, attrs, rows, cursor.row)
}

pub fn look_delete_row(
    chars: &[u8],
    attrs: &[u8],
    rows: usize,
    cursor: Cursor,
    format: bool,
) -> Changes
    requires { Whole rows (page cursor chars.now attrs.now) }
    ensures { result ≡ set_of (changed rows (page cursor chars.now attrs.now) (row_deleted format (page cursor chars.now attrs.now))) }
{
    if format {
        return Changes::none();
    }
    look_up(chars, attrs, rows, cursor.row, chars[rows * 80 - 1])
}

// Whether a mark at a cell changes it.
pub fn mark_differs(attrs: &[u8], format: bool, m: u8, k: usize) -> bool
    requires { (k < length attrs.now) × (m < 16) }
    ensures { result ≡ differs attrs.now (mark_set format m attrs.now k) }
{
    if format {
        return false;
    }
    attrs[k] != attrs[k] / 16 * 16 + m
}

// Whether a mark 1 to 3 at a cell turned into another changes it.
pub fn turn_differs(attrs: &[u8], format: bool, m: u8, k: usize) -> bool
    requires { (k < length attrs.now) × (m < 16) }
    ensures { result ≡ differs attrs.now (mark_turned format m attrs.now k) }
{
    if fields::has_mark(attrs[k], 3) {
        return mark_differs(attrs, format, m, k);
    }
    false
}

// Whether an enhancement at a cell changes it.
pub fn enhance_differs(attrs: &[u8], format: bool, e: u8, k: usize) -> bool
    requires { (k < length attrs.now) × (e < 16) }
    ensures { result ≡ differs attrs.now (enhanced format e attrs.now k) }
{
    if format {
        return false;
    }
    attrs[k] != e * 16 + attrs[k] % 16
}
