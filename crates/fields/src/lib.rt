// Fields: scans over the attribute memory, rows of 80 cells. A scan stops at the first hit.
#![tactic(auto)]

ghost use Rattle.std.specs.Prelude.{◌≡◌, ◌+◌, ◌-◌, ◌*◌, ◌/◌, ◌≤◌, ◌<◌, length};
ghost use Rattle.cells.specs.Search.{first_in, last_in, count_in};
ghost use Rattle.fields.specs.Walk.{kind_after};
ghost use Rattle.fields.specs.Fields.{mark_of, marks, is_in, kind_at, unprotected, field_end, first_start, next_start, prev_start, nth_field, target, allowed, non_blank, row_under_text};

// Whether a mark is 1 to `highest`.
pub fn is_in(highest: u8, mark: u8) -> bool
    ensures { result ≡ is_in highest mark }
{
    (1..=highest).contains(&mark)
}

// Whether an attribute byte's mark is 1 to `highest`.
pub fn has_mark(a: u8, highest: u8) -> bool
    ensures { result ≡ is_in highest (mark_of a) }
{
    is_in(highest, a % 16)
}

// The first of the cells `from` to `to - 1` whose mark is 1 to `highest`. Over rows, within each row over columns, left by a label at the first hit: document 01 names this form.
fn first_mark(attrs: &[u8], from: usize, to: usize, highest: u8) -> Option<usize>
    requires { (from ≤ to) × (to ≤ length attrs.now) }
    ensures { result ≡ first_in (is_in highest) (marks attrs.now) from to }
{
    let mut start = from;
    'rows: loop {
        if to <= start {
            break 'rows None;
        }
        let end = to.min(start / 80 * 80 + 80);
        for cell in start..end {
            if has_mark(attrs[cell], highest) {
                break 'rows Some(cell);
            }
        }
        start = end;
    }
}

// The last of them, from the last row to the first, within each row from the last column. Out of line, so that its loop has the registers to itself.
#[inline(never)]
fn last_mark(attrs: &[u8], from: usize, to: usize, highest: u8) -> Option<usize>
    requires { (from ≤ to) × (to ≤ length attrs.now) }
    ensures { result ≡ last_in (is_in highest) (marks attrs.now) from to }
{
    let mut end = to;
    'rows: loop {
        if end <= from {
            break 'rows None;
        }
        let start = from.max((end - 1) / 80 * 80);
        for cell in (start..end).rev() {
            if has_mark(attrs[cell], highest) {
                break 'rows Some(cell);
            }
        }
        end = start;
    }
}

// Tab: the first unprotected field start after a cell, else the first of all; no cell is looked at twice.
pub fn next_start(attrs: &[u8], cell: usize) -> Option<usize>
    requires { cell < length attrs.now }
    ensures { result ≡ next_start (marks attrs.now) cell }
{
    let after = first_mark(attrs, cell + 1, attrs.len(), 3);
    after.or_else(|| first_mark(attrs, 0, cell + 1, 3))
}

// Back tab: the last unprotected field start before a cell, else the last of all; no cell is looked at twice.
pub fn prev_start(attrs: &[u8], cell: usize) -> Option<usize>
    requires { cell < length attrs.now }
    ensures { result ≡ prev_start (marks attrs.now) cell }
{
    let before = last_mark(attrs, 0, cell, 3);
    before.or_else(|| last_mark(attrs, cell, attrs.len(), 3))
}

// Home: the first field whose mark is 1 to `highest`.
pub fn first_start(attrs: &[u8], highest: u8) -> Option<usize>
    ensures { result ≡ first_start highest (marks attrs.now) }
{
    first_mark(attrs, 0, attrs.len(), highest)
}

// The kind of cell `i` from its mark and the kind of the cell before it.
pub fn kind_after(i: usize, before: u8, mark: u8) -> u8
    ensures { result ≡ kind_after i before mark }
{
    if is_in(5, mark) {
        return mark;
    }
    if i % 80 == 0 {
        return 0;
    }
    before
}

// The mark that governs a cell. It stays a number: four bits of a lent byte, any of sixteen. The cells lie in one row: a `for` of its own, and no search over
// rows.
pub fn kind_at(attrs: &[u8], cell: usize) -> u8
    requires { cell < length attrs.now }
    ensures { result ≡ kind_at (marks attrs.now) cell }
{
    for i in (cell / 80 * 80..cell + 1).rev() {
        let mark = attrs[i] % 16;
        if is_in(5, mark) {
            return mark;
        }
    }
    0
}

// Whether a cell is unprotected.
pub fn is_unprotected(attrs: &[u8], cell: usize) -> bool
    requires { cell < length attrs.now }
    ensures { result ≡ unprotected (marks attrs.now) cell }
{
    is_in(3, kind_at(attrs, cell))
}

// The cell past the last of the field that holds a cell. As in `kind_at` the cells lie in one row, so no search over rows.
pub fn field_end(attrs: &[u8], cell: usize) -> usize
    requires { cell / 80 * 80 + 80 ≤ length attrs.now }
    ensures { result ≡ field_end (marks attrs.now) cell }
{
    let end = cell / 80 * 80 + 80;
    for i in cell + 1..end {
        if has_mark(attrs[i], 5) {
            return i;
        }
    }
    end
}

// How many of the 16 cells from `from` on have a mark 1 to 3. No early exit and no chain: this loop becomes vector code, which `filter(..).count()` does not.
fn count_starts(attrs: &[u8], from: usize) -> usize
    requires { from + 16 ≤ length attrs.now }
    ensures { result ≡ count_in (is_in 3) (marks attrs.now) from (from + 16) }
{
    let mut count = 0;
    for k in 0..16 {
        if has_mark(attrs[from + k], 3) {
            count += 1;
        }
    }
    count
}

// Where the unprotected field number `n` starts: 16 cells one by one, then 16 at a time up to those that have it, and these one by one. `i` moves on by one
// and by 16, so the loops count it themselves.
pub fn nth_field(attrs: &[u8], n: usize) -> Option<usize>
    ensures { result ≡ nth_field (marks attrs.now) n }
{
    let mut left = n;
    let mut i = 0;
    while i < attrs.len() {
        let end = (i + 16).min(attrs.len());
        while i < end {
            if has_mark(attrs[i], 3) {
                if left == 0 {
                    return Some(i);
                }
                left -= 1;
            }
            i += 1;
        }
        while 16 <= attrs.len() - i {
            let count = count_starts(attrs, i);
            if left < count {
                break;
            }
            left -= count;
            i += 16;
        }
    }
    None
}

// The cell that takes text with format on.
pub fn find_target(attrs: &[u8], cell: usize) -> Option<usize>
    requires { cell < length attrs.now }
    ensures { result ≡ target (marks attrs.now) cell }
{
    if is_unprotected(attrs, cell) {
        return Some(cell);
    }
    next_start(attrs, cell)
}

// Whether a field of a kind takes a character.
pub fn allows(kind: u8, v: u8) -> bool
    ensures { result ≡ allowed kind v }
{
    if kind == 2 {
        return cells::is_within(65, 90, v) | cells::is_within(97, 122, v) | (v == 32);
    }
    if kind == 3 {
        return cells::is_within(48, 57, v) | cells::is_within(43, 46, v) | (v == 32);
    }
    true
}

// Home down: the row under the last row that has a non-blank.
pub fn row_under_text(chars: &[u8], rows: usize) -> usize
    requires { 0 < rows }
    ensures { result ≡ row_under_text rows chars.now }
{
    let last = chars.iter().rposition(|v| *v != 32);
    match last {
        Some(i) => (i / 80 + 1).min(rows - 1),
        None => 0,
    }
}

// The last non-blank of the cells `from` to `to - 1`. No `rposition` of a part: `from` may lie past `to`.
pub fn last_text(chars: &[u8], from: usize, to: usize) -> Option<usize>
    requires { to ≤ length chars.now }
    ensures { result ≡ last_in non_blank chars.now from to }
{
    for i in (from..to).rev() {
        if chars[i] != 32 {
            return Some(i);
        }
    }
    None
}
