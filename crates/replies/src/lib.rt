// The replies, byte by byte. A reply's length is told before it is sent.
#![tactic(auto)]

ghost use Rattle.std.specs.Prelude.{◌≡◌, ◌+◌, ◌*◌, ◌/◌, ◌%◌, ◌≤◌, ◌<◌, length};
ghost use Rattle.cells.specs.Search.{last_in};
ghost use Rattle.cells.specs.Memory.{written};
ghost use Rattle.fields.specs.Fields.{mark_of, marks, is_in, field_end, non_blank};
ghost use Rattle.replies.specs.Replies.{cursor_reply, status_reply, field_text, fields_reply, through, row_reply, block_reply};

fn digit(n: usize) -> u8
    ensures { result ≡ 48 + n % 10 }
{
    (48 + n % 10) as u8
}

// ESC & a, three digits of column, c, three of row, the letter, CR.
pub fn report_cursor(col: usize, row: usize, letter: u8) -> [u8; 12]
    ensures { result ≡ cursor_reply col row letter }
{
    [
        27,
        38,
        97,
        digit(col / 100),
        digit(col / 10),
        digit(col),
        99,
        digit(row / 100),
        digit(row / 10),
        digit(row),
        letter,
        13,
    ]
}

// ESC, byte 92, the three flags, six bytes 48, CR.
pub fn report_status(format: bool, insert: bool, lock: bool) -> [u8; 10]
    ensures { result ≡ status_reply format insert lock }
{
    let flags = 48 + format as u8 + 2 * (insert as u8) + 4 * (lock as u8);
    [27, 92, flags, 48, 48, 48, 48, 48, 48, 13]
}

// Whether a block transfer sends a field that starts at a cell: its attribute byte's mark is 1 to 4.
fn is_sent(a: u8) -> bool
    ensures { result ≡ is_in 4 (mark_of a) }
{
    fields::has_mark(a, 4)
}

// How many bytes all fields of marks 1 to 4 send, with their separators. A `while`, since a field is passed in one step.
fn measure_fields(chars: &[u8], attrs: &[u8]) -> usize
    requires { (length chars.now ≡ length attrs.now) × (length attrs.now ≤ 7680) × (length attrs.now % 80 ≡ 0) }
    ensures { result ≡ length (fields_reply chars.now attrs.now) }
{
    let mut n = 1;
    let mut i = 0;
    while i < attrs.len() {
        if is_sent(attrs[i]) {
            if 1 < n {
                n += 1;
            }
            let end = fields::field_end(attrs, i);
            n += end - i;
            i = end;
        } else {
            i += 1;
        }
    }
    n
}

// The field that starts at cell `from`, whole, from byte `at` of the reply on; the cell past its last. Each cell is looked at once.
fn send_field(chars: &[u8], attrs: &[u8], from: usize, reply: &mut [u8], at: usize) -> usize
    requires memory { (length chars.now ≡ length attrs.now) × (from / 80 * 80 + 80 ≤ length attrs.now) }
    requires room { at + length (field_text chars.now (marks attrs.now) from) ≤ length reply.old }
    ensures past { result ≡ field_end (marks attrs.now) from }
    ensures sent { reply.new ≡ written reply.old at (field_text chars.now (marks attrs.now) from) }
{
    let end = from / 80 * 80 + 80;
    reply[at] = chars[from];
    for i in from + 1..end {
        if fields::has_mark(attrs[i], 5) {
            return i;
        }
        reply[at + (i - from)] = chars[i];
    }
    end
}

// All fields of marks 1 to 4, from byte `at` of the reply on; the place past the last byte. A `while`, as in `measure_fields`.
fn send_fields(chars: &[u8], attrs: &[u8], reply: &mut [u8], at: usize) -> usize
    requires memory { (length chars.now ≡ length attrs.now) × (length attrs.now % 80 ≡ 0) }
    requires room { at + length (fields_reply chars.now attrs.now) ≤ length reply.old }
    ensures end { result ≡ at + length (fields_reply chars.now attrs.now) }
    ensures sent { reply.new ≡ written reply.old at (fields_reply chars.now attrs.now) }
{
    let mut n = at;
    let mut i = 0;
    while i < attrs.len() {
        if is_sent(attrs[i]) {
            if at < n {
                reply[n] = 31;
                n += 1;
            }
            let end = send_field(chars, attrs, i, reply, n);
            n += end - i;
            i = end;
        } else {
            i += 1;
        }
    }
    reply[n] = 30;
    n + 1
}

// The cell past the last non-blank of a row; the row's start where it is blank.
fn row_through(chars: &[u8], row: usize) -> usize
    requires { (row < 96) × (row * 80 + 80 ≤ length chars.now) }
    ensures { result ≡ through (row * 80) (last_in non_blank chars.now (row * 80) (row * 80 + 80)) }
{
    let from = row * 80;
    let last = fields::last_text(chars, from, from + 80);
    match last {
        Some(k) => k + 1,
        None => from,
    }
}

// The row through its last non-blank, CR, from byte `at` of the reply on; the place past the last byte.
fn send_row(chars: &[u8], row: usize, reply: &mut [u8], at: usize) -> usize
    requires row { (row < 96) × (row * 80 + 80 ≤ length chars.now) }
    requires room { at + length (row_reply chars.now row) ≤ length reply.old }
    ensures end { result ≡ at + length (row_reply chars.now row) }
    ensures sent { reply.new ≡ written reply.old at (row_reply chars.now row) }
{
    let from = row * 80;
    let to = row_through(chars, row);
    cells::write_at(reply, at, &chars[from..to]);
    let end = at + (to - from);
    reply[end] = 13;
    end + 1
}

// How many bytes a block transfer sends.
pub fn measure_block(chars: &[u8], attrs: &[u8], format: bool, row: usize) -> usize
    requires { (row < 96) × (row * 80 + 80 ≤ length chars.now) × (length chars.now ≡ length attrs.now) × (length attrs.now ≤ 7680) × (length attrs.now % 80 ≡ 0) }
    ensures { result ≡ length (block_reply format chars.now attrs.now row) }
{
    if format {
        return measure_fields(chars, attrs);
    }
    row_through(chars, row) - row * 80 + 1
}

// A block transfer, from byte `at` of the reply on; the place past the last byte.
pub fn send_block(
    chars: &[u8],
    attrs: &[u8],
    format: bool,
    row: usize,
    reply: &mut [u8],
    at: usize,
) -> usize
    requires memory { (row < 96) × (row * 80 + 80 ≤ length chars.now) × (length chars.now ≡ length attrs.now) × (length attrs.now % 80 ≡ 0) }
    requires room { at + length (block_reply format chars.now attrs.now row) ≤ length reply.old }
    ensures end { result ≡ at + length (block_reply format chars.now attrs.now row) }
    ensures sent { reply.new ≡ written reply.old at (block_reply format chars.now attrs.now row) }
{
    if format {
        return send_fields(chars, attrs, reply, at);
    }
    send_row(chars, row, reply, at)
}
