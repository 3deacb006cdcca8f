// The call for host bytes.
#![tactic(auto)]

ghost use Rattle.std.specs.Prelude.{◌≡◌, ◌≤◌, ◌<◌};
ghost use Rattle.reading.specs.Action.{number_of};
ghost use Rattle.streams.specs.Streams.{action_for, read_on, stepped_by, host_left, fed_on, fed};
ghost use Rattle.table.specs.Table.{numbers_of, Tabled};
ghost use Rattle.terminal.specs.State.{world, Sound};
ghost use Rattle.host.specs.Texts.{types_freely};

use changes::Changes;
use reading::Action;
use streams::HostAnswer;
use terminal::{Refusal, Size, Terminal};

// The action of a byte, a sign that is not first settled.
fn action_for(t: Terminal, table: &[[Action; 128]; 7], byte: u8) -> Action
    requires reading { t.reading < 7 }
    requires table { Tabled (numbers_of table.now) }
    ensures { number_of result ≡ action_for t byte }
{
    t.number.settle(table::action(table, t.reading, byte))
}

// The reading state and the number after an action.
fn read_on(mut t: Terminal, a: Action, b: u8) -> Terminal
    requires { t.number.value ≤ 999 }
    ensures { result ≡ read_on (number_of a) b t }
{
    t.number = t.number.count(a, b);
    t.reading = reading::next_reading(a);
    t
}

// One byte, whose action is `a`.
fn step(
    t: Terminal,
    rows: usize,
    chars: &mut [u8],
    attrs: &mut [u8],
    a: Action,
    byte: u8,
) -> Terminal
    requires { Sound rows (world t chars.old attrs.old) }
    ensures { world result chars.new attrs.new ≡ stepped_by rows (number_of a) byte (world t chars.old attrs.old) }
{
    let b = byte % 128;
    read_on(noting::act(t, rows, chars, attrs, a, b), a, b)
}

// Whether a byte is text that goes to the cursor's cell, and the cursor right.
#[tactic(auto, unfolding(crate::specs::Texts::types_freely))]
fn types_freely(t: Terminal, rows: usize, byte: u8) -> bool
    requires { (rows ≤ 96) × (t.cursor.row < rows) × (t.cursor.col < 80) }
    ensures { result ≡ types_freely rows t byte }
{
    runs::is_text(byte)
        && t.reading == 0
        && !t.format
        && !t.insert
        && t.cursor.cell() + 1 < rows * 80
}

// The bytes, up to the one whose reply does not fit. A turn takes one byte or a run of them, so the place is counted by hand.
fn feed_on(
    t: Terminal,
    rows: usize,
    chars: &mut [u8],
    attrs: &mut [u8],
    bytes: &[u8],
    reply: &mut [u8],
) -> HostAnswer
    requires { Sound rows (world t chars.old attrs.old) }
    ensures { host_left result chars.new attrs.new reply.new ≡ fed_on rows bytes.now 0 0 (world t chars.old attrs.old) reply.old }
{
    let table = table::actions();
    let mut u = t;
    let mut at = 0;
    let mut i = 0;
    while i < bytes.len() {
        let b = bytes[i];
        if types_freely(u, rows, b) {
            let cell = u.cursor.row * 80 + u.cursor.col;
            let got = runs::copy_text(chars, bytes, i, cell);
            let joined = u.changes.join(Changes::one(u.cursor.row, got.changed));
            u.changes = joined;
            u.cursor = u.cursor.go_to(cell + got.count);
            i += got.count;
            continue;
        }
        let r = runs::follow(u.cursor, u.number, u.reading, rows, &table, bytes, i);
        if i < r.at {
            let cursor = r.cursor;
            let number = r.number;
            u.cursor = cursor;
            u.number = number;
            u.reading = r.reading;
            i = r.at;
            continue;
        }
        let a = action_for(u, &table, b);
        if !streams::has_room(u, rows, chars, attrs, a, reply.len() - at) {
            return HostAnswer {
                number: Refusal::Room.number(),
                taken: i,
                written: at,
                state: u,
            };
        }
        at = streams::send(u, rows, chars, attrs, a, reply, at);
        u = step(u, rows, chars, attrs, a, b);
        i += 1;
    }
    HostAnswer {
        number: 0,
        taken: bytes.len(),
        written: at,
        state: u,
    }
}

// Host bytes, in a memory of `rows` rows.
pub fn host_on(
    t: Terminal,
    rows: usize,
    chars: &mut [u8],
    attrs: &mut [u8],
    bytes: &[u8],
    reply: &mut [u8],
) -> HostAnswer
    requires { (24 ≤ rows) × (rows ≤ 96) }
    ensures { host_left result chars.new attrs.new reply.new ≡ fed rows (world t chars.old attrs.old) bytes.now reply.old }
{
    if let Err(refusal) = streams::refuse(t, rows, chars, attrs) {
        return HostAnswer {
            number: refusal.number(),
            taken: 0,
            written: 0,
            state: t,
        };
    }
    feed_on(t, rows, chars, attrs, bytes, reply)
}

// Host bytes, in a memory of a size. Takes any state, any buffers and any bytes; 1 and 2 change nothing, 7 stops before the byte whose reply does not fit.
pub fn host<S: Size>(
    t: Terminal,
    chars: &mut [u8],
    attrs: &mut [u8],
    bytes: &[u8],
    reply: &mut [u8],
) -> HostAnswer
    ensures { host_left result chars.new attrs.new reply.new ≡ fed S.size (world t chars.old attrs.old) bytes.now reply.old }
{
    host_on(t, S::rows(), chars, attrs, bytes, reply)
}
