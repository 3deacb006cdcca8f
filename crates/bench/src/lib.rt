// What bench/ times, in a memory of `rows` rows, 24 to 96. Each begins with a fresh terminal in the lent buffers; `changed`, of two words, gets the rows that changed
// since then, or since the form was painted. Each takes what C passes, one by one.
#![tactic(auto)]

ghost use Rattle.std.specs.Prelude.{◌≤◌};

use terminal::Terminal;

// A host stream; how many of its bytes are taken.
pub fn run_host(
    rows: usize,
    chars: &mut [u8],
    attrs: &mut [u8],
    bytes: &[u8],
    reply: &mut [u8],
    changed: &mut [u64],
) -> usize
    requires { (24 ≤ rows) × (rows ≤ 96) }
{
    let begun = terminal::fresh_on(rows, chars, attrs);
    let told = report::report_on(begun.state, rows);
    let answer = host::host_on(told.state, rows, chars, attrs, bytes, reply);
    tell(answer.state, changed);
    answer.taken
}

// The lines of 80 bytes of a host stream, with a report behind each; how many rows the reports tell of in all, and the state afterwards.
fn report_lines(
    t: Terminal,
    rows: usize,
    chars: &mut [u8],
    attrs: &mut [u8],
    bytes: &[u8],
    reply: &mut [u8],
) -> (u64, Terminal)
    requires { (24 ≤ rows) × (rows ≤ 96) }
{
    let mut state = t;
    let mut sum = 0u64;
    for line in bytes.chunks_exact(80) {
        let answer = host::host_on(state, rows, chars, attrs, line, reply);
        let told = report::report_on(answer.state, rows);
        state = told.state;
        sum = sum.wrapping_add(told.count as u64) % 4294967296;
    }
    (sum, state)
}

// The lines of 80 bytes of a host stream, with a report behind each; how many rows the reports tell of in all.
pub fn run_lines(
    rows: usize,
    chars: &mut [u8],
    attrs: &mut [u8],
    bytes: &[u8],
    reply: &mut [u8],
    changed: &mut [u64],
) -> u64
    requires { (24 ≤ rows) × (rows ≤ 96) }
{
    let begun = paint(rows, chars, attrs, b"", reply);
    let (sum, state) = report_lines(begun, rows, chars, attrs, bytes, reply);
    tell(state, changed);
    sum
}

// The rows that changed, in two words.
pub fn tell(t: Terminal, changed: &mut [u64]) {
    if 2 <= changed.len() {
        changed[0] = t.changes.low;
        changed[1] = t.changes.high;
    }
}

// A fresh terminal on which a host stream paints a form, and which has reported its rows.
fn paint(rows: usize, chars: &mut [u8], attrs: &mut [u8], form: &[u8], reply: &mut [u8]) -> Terminal
    requires { (24 ≤ rows) × (rows ≤ 96) }
{
    let begun = terminal::fresh_on(rows, chars, attrs);
    let painted = host::host_on(begun.state, rows, chars, attrs, form, reply);
    report::report_on(painted.state, rows).state
}

// A host stream that paints a form, then one post `times` times; the number of the last.
pub fn run_posts(
    rows: usize,
    chars: &mut [u8],
    attrs: &mut [u8],
    form: &[u8],
    reply: &mut [u8],
    changed: &mut [u64],
    field: usize,
    text: &[u8],
    times: usize,
) -> u8
    requires { (24 ≤ rows) × (rows ≤ 96) }
{
    let mut t = paint(rows, chars, attrs, form, reply);
    let mut number = 0;
    for _ in 0..times {
        let answer = post::post_on(t, rows, chars, attrs, field, text);
        t = answer.state;
        number = answer.number;
    }
    tell(t, changed);
    number
}

// Two keys in turn, `times` in all; the number of the last, and the state afterwards.
fn press_in_turn(
    t: Terminal,
    rows: usize,
    chars: &mut [u8],
    attrs: &mut [u8],
    reply: &mut [u8],
    code: u16,
    other: u16,
    times: usize,
) -> (u8, Terminal)
    requires { (24 ≤ rows) × (rows ≤ 96) }
{
    let mut state = t;
    let mut number = 0;
    for i in 0..times {
        let pressed = if i % 2 == 0 { code } else { other };
        let answer = key::key_on(state, rows, chars, attrs, pressed, reply);
        state = answer.state;
        number = answer.number;
    }
    (number, state)
}

// A host stream that paints a form, then two keys in turn, `times` in all, and a character that shows where the cursor is; the number of the last key.
pub fn run_keys(
    rows: usize,
    chars: &mut [u8],
    attrs: &mut [u8],
    form: &[u8],
    reply: &mut [u8],
    changed: &mut [u64],
    code: u16,
    other: u16,
    times: usize,
) -> u8
    requires { (24 ≤ rows) × (rows ≤ 96) }
{
    let painted = paint(rows, chars, attrs, form, reply);
    let (number, state) = press_in_turn(painted, rows, chars, attrs, reply, code, other, times);
    let last = host::host_on(state, rows, chars, attrs, b"X", reply);
    tell(last.state, changed);
    number
}

// A host stream that paints a form, then `ESC d DC1` `times` times; how many bytes the last of them sends.
pub fn run_blocks(
    rows: usize,
    chars: &mut [u8],
    attrs: &mut [u8],
    form: &[u8],
    reply: &mut [u8],
    changed: &mut [u64],
    times: usize,
) -> usize
    requires { (24 ≤ rows) × (rows ≤ 96) }
{
    let mut t = paint(rows, chars, attrs, form, reply);
    let mut sent = 0;
    for _ in 0..times {
        let answer = host::host_on(t, rows, chars, attrs, b"\x1bd\x11", reply);
        t = answer.state;
        sent = answer.written;
    }
    tell(t, changed);
    sent
}
