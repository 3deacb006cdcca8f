// Session records: a record of 84 bytes is read and run on a terminal. `rows` is the number of rows of its memory, 24 to 96; `is_plain` is for the plain reader of host
// bytes, else the table reads them: what comes out is the same.
#![tactic(auto)]

ghost use Rattle.std.specs.Prelude.{◌≡◌, ◌==◌, ◌*◌, ◌≤◌, length, drop};
ghost use Rattle.std.specs.List.{list_all};
ghost use Rattle.terminal.specs.State.{world};
ghost use Rattle.streams.specs.Streams.{host_left, fed};
ghost use Rattle.records.specs.Records.{number_of, zeros, part_left, host_part, key_part, post_part, record_part, ran_left, record_ran};
ghost use Rattle.records.specs.Forms.{Says};

use streams::HostAnswer;
use terminal::{Refusal, Size, Terminal};

// The number, the data byte to go on from, the bytes written to the reply, and the state afterwards. A number stays a byte, as document 01 gives it, and beside it stands what was done.
#[derive(Clone, Copy)]
pub struct PartAnswer {
    pub number: u8,
    pub at: usize,
    pub written: usize,
    pub state: Terminal,
}

// The answer, the reply bytes added up, and the state afterwards.
#[derive(Clone, Copy)]
pub struct RanAnswer {
    pub answer: u8,
    pub replied: usize,
    pub state: Terminal,
}

// Whether all bytes are 0.
fn are_zero(bytes: &[u8]) -> bool
    ensures { result ≡ list_all (λ b. b == 0) bytes.now }
{
    bytes.iter().all(|b| *b == 0)
}

// Whether all bytes from `from` on are 0.
pub fn is_zero(bytes: &[u8], from: usize) -> bool
    requires { from ≤ length bytes.now }
    ensures { result ≡ zeros (drop from bytes.now) }
{
    are_zero(&bytes[from..])
}

// The two bytes of the record's number.
fn number(bytes: &[u8]) -> u16
    requires { 4 ≤ length bytes.now }
    ensures { result ≡ number_of bytes.now }
{
    u16::from_le_bytes([bytes[2], bytes[3]])
}

// The record's number, low byte first.
pub fn number_of(bytes: &[u8]) -> usize
    requires { 4 ≤ length bytes.now }
    ensures { result ≡ number_of bytes.now }
{
    number(bytes) as usize
}

// What a record says: host bytes, a key's code, or a field's number and the text for it.
enum Record<'a> {
    Host(&'a [u8]),
    Key(u16),
    Post { field: usize, text: &'a [u8] },
}

// Reads a record of 84 bytes. Refuses fewer bytes as a part of one, and any other form.
fn read<'a>(bytes: &'a [u8]) -> Result<Record<'a>, Refusal>
    ensures { Says bytes.now result }
{
    if bytes.len() < 84 {
        return Err(Refusal::Part);
    }
    if bytes.len() != 84 {
        return Err(Refusal::Form);
    }
    let size = bytes[1] as usize;
    if 80 < size {
        return Err(Refusal::Form);
    }
    if !is_zero(bytes, 4 + size) {
        return Err(Refusal::Form);
    }
    let number = number(bytes);
    let text = &bytes[4..4 + size];
    match bytes[0] {
        b'H' if number == 0 => Ok(Record::Host(text)),
        b'K' if size == 0 => Ok(Record::Key(number)),
        b'P' => Ok(Record::Post {
            field: number as usize,
            text,
        }),
        _ => Err(Refusal::Form),
    }
}

// Host bytes, read by either reader.
fn feed(
    t: Terminal,
    rows: usize,
    chars: &mut [u8],
    attrs: &mut [u8],
    bytes: &[u8],
    reply: &mut [u8],
    is_plain: bool,
) -> HostAnswer
    requires { (24 ≤ rows) × (rows ≤ 96) }
    ensures { host_left result chars.new attrs.new reply.new ≡ fed rows (world t chars.old attrs.old) bytes.now reply.old }
{
    if is_plain {
        return plain::host_on(t, rows, chars, attrs, bytes, reply);
    }
    host::host_on(t, rows, chars, attrs, bytes, reply)
}

// Host bytes from byte `at` on, as far as the reply buffer goes.
fn run_host(
    t: Terminal,
    rows: usize,
    chars: &mut [u8],
    attrs: &mut [u8],
    bytes: &[u8],
    at: usize,
    reply: &mut [u8],
    is_plain: bool,
) -> PartAnswer
    requires { (24 ≤ rows) × (rows ≤ 96) }
    ensures { part_left result chars.new attrs.new reply.new ≡ host_part rows (world t chars.old attrs.old) bytes.now at reply.old }
{
    let from = at.min(bytes.len());
    let a = feed(t, rows, chars, attrs, &bytes[from..], reply, is_plain);
    PartAnswer {
        number: a.number,
        at: at + a.taken,
        written: a.written,
        state: a.state,
    }
}

fn run_key(
    t: Terminal,
    rows: usize,
    chars: &mut [u8],
    attrs: &mut [u8],
    code: u16,
    at: usize,
    reply: &mut [u8],
) -> PartAnswer
    requires { (24 ≤ rows) × (rows ≤ 96) }
    ensures { part_left result chars.new attrs.new reply.new ≡ key_part rows (world t chars.old attrs.old) code at reply.old }
{
    let a = key::key_on(t, rows, chars, attrs, code, reply);
    PartAnswer {
        number: a.number,
        at,
        written: a.written,
        state: a.state,
    }
}

fn run_post(
    t: Terminal,
    rows: usize,
    chars: &mut [u8],
    attrs: &[u8],
    field: usize,
    text: &[u8],
    at: usize,
    reply: &[u8],
) -> PartAnswer
    requires { (24 ≤ rows) × (rows ≤ 96) }
    ensures { part_left result chars.new attrs.now reply.now ≡ post_part rows (world t chars.old attrs.now) field text.now at reply.now }
{
    let a = post::post_on(t, rows, chars, attrs, field, text);
    PartAnswer {
        number: a.number,
        at,
        written: 0,
        state: a.state,
    }
}

// One session record from its data byte `at` on, its reply bytes to the start of `reply`. 7 from an H record: the reply buffer is full, so call again with the `at`
// that came back and the whole buffer. Any other number ends the record: K and P records run once, a record of another form does nothing.
pub fn run_from_on(
    t: Terminal,
    rows: usize,
    chars: &mut [u8],
    attrs: &mut [u8],
    bytes: &[u8],
    at: usize,
    reply: &mut [u8],
    is_plain: bool,
) -> PartAnswer
    requires { (24 ≤ rows) × (rows ≤ 96) }
    ensures { part_left result chars.new attrs.new reply.new ≡ record_part rows (world t chars.old attrs.old) bytes.now at reply.old }
{
    match read(bytes) {
        Ok(Record::Host(text)) => run_host(t, rows, chars, attrs, text, at, reply, is_plain),
        Ok(Record::Key(code)) => run_key(t, rows, chars, attrs, code, at, reply),
        Ok(Record::Post { field, text }) => run_post(t, rows, chars, attrs, field, text, at, reply),
        Err(refusal) => PartAnswer {
            number: refusal.number(),
            at,
            written: 0,
            state: t,
        },
    }
}

// `run_from_on` in a memory of a size. Takes any state and any buffers.
pub fn run_from<S: Size>(
    t: Terminal,
    chars: &mut [u8],
    attrs: &mut [u8],
    bytes: &[u8],
    at: usize,
    reply: &mut [u8],
) -> PartAnswer
    ensures { part_left result chars.new attrs.new reply.new ≡ record_part S.size (world t chars.old attrs.old) bytes.now at reply.old }
{
    run_from_on(t, S::rows(), chars, attrs, bytes, at, reply, false)
}

// The calls that a record needs at most: each takes at least one of its 80 bytes.
const CALLS: usize = 81;

// One whole session record: its answer, and its reply bytes added up. `reply` is lent with room for the longest reply; what it holds does not matter.
pub fn run_on(
    t: Terminal,
    rows: usize,
    chars: &mut [u8],
    attrs: &mut [u8],
    bytes: &[u8],
    reply: &mut [u8],
    is_plain: bool,
) -> RanAnswer
    requires { (24 ≤ rows) × (rows ≤ 96) × (length reply.old ≡ rows * 160) }
    ensures { ran_left result chars.new attrs.new ≡ record_ran rows (world t chars.old attrs.old) bytes.now }
{
    let mut u = t;
    let mut at = 0;
    let mut sum = 0;
    let full = Refusal::Room.number();
    for _ in 0..CALLS {
        let a = run_from_on(u, rows, chars, attrs, bytes, at, reply, is_plain);
        u = a.state;
        at = a.at;
        sum += a.written;
        if a.number != full {
            return RanAnswer {
                answer: a.number,
                replied: sum,
                state: u,
            };
        }
    }
    RanAnswer {
        answer: full,
        replied: sum,
        state: u,
    }
}

// `run_on` in a memory of a size, with a reply buffer of its own. Takes any state and any buffers.
pub fn run<S: Size>(t: Terminal, chars: &mut [u8], attrs: &mut [u8], bytes: &[u8]) -> RanAnswer
    ensures { ran_left result chars.new attrs.new ≡ record_ran S.size (world t chars.old attrs.old) bytes.now }
{
    let rows = S::rows();
    if rows == 48 {
        let mut reply = [0u8; 7680];
        return run_on(t, rows, chars, attrs, bytes, &mut reply, false);
    }
    let mut reply = [0u8; 15360];
    run_on(
        t,
        rows,
        chars,
        attrs,
        bytes,
        &mut reply[..rows * 160],
        false,
    )
}
