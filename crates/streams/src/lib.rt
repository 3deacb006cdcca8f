// Host streams: when one is refused, what a byte sends, and the answer.
#![tactic(auto)]

ghost use Rattle.std.specs.Prelude.{◌≡◌, ◌+◌, ◌≤◌, length, leb};
ghost use Rattle.cells.specs.Memory.{written};
ghost use Rattle.reading.specs.Action.{number_of};
ghost use Rattle.terminal.specs.State.{world, Sound};
ghost use Rattle.terminal.specs.Numbers.{answered};
ghost use Rattle.streams.specs.Streams.{pending_reply, reply_to, host_refusal};

use reading::Action;
use terminal::{Refusal, Terminal};

// The number, which stays a byte as docs/CALLS.md has it, the bytes taken, the bytes written to the reply, and the state afterwards.
#[derive(Clone, Copy)]
pub struct HostAnswer {
    pub number: u8,
    pub taken: usize,
    pub written: usize,
    pub state: Terminal,
}

// Refuses a stream with memories of another size, and with a state that is not good, in this order.
pub fn refuse(t: Terminal, rows: usize, chars: &[u8], attrs: &[u8]) -> Result<(), Refusal>
    requires { (24 ≤ rows) × (rows ≤ 96) }
    ensures { answered result ≡ host_refusal rows (world t chars.now attrs.now) }
{
    t.check(rows, chars, attrs)
}

// How many bytes the pending transfer sends; its number may be any, so it is no enum.
fn measure_pending(t: Terminal, rows: usize, chars: &[u8], attrs: &[u8]) -> usize
    requires { Sound rows (world t chars.now attrs.now) }
    ensures { result ≡ length (pending_reply (world t chars.now attrs.now)) }
{
    match t.pending {
        1 | 2 => 12,
        3 => 10,
        4 => replies::measure_block(chars, attrs, t.format, t.cursor.row),
        _ => 0,
    }
}

// How many bytes an action sends.
#[tactic(auto, unfolding(crate::specs::Streams::reply_to))]
fn measure(t: Terminal, rows: usize, chars: &[u8], attrs: &[u8], a: Action) -> usize
    requires { Sound rows (world t chars.now attrs.now) }
    ensures { result ≡ length (reply_to (number_of a) (world t chars.now attrs.now)) }
{
    match a {
        Action::Ack => 1,
        Action::Trigger => measure_pending(t, rows, chars, attrs),
        _ => 0,
    }
}

// Whether what an action sends fits into `room` bytes: room for the longest reply is told without measuring.
pub fn has_room(
    t: Terminal,
    rows: usize,
    chars: &[u8],
    attrs: &[u8],
    a: Action,
    room: usize,
) -> bool
    requires { Sound rows (world t chars.now attrs.now) }
    ensures { result ≡ leb (length (reply_to (number_of a) (world t chars.now attrs.now))) room }
{
    if rows * 160 <= room {
        return true;
    }
    measure(t, rows, chars, attrs, a) <= room
}

// The pending transfer's reply, from byte `at` of the reply on; the place past the last byte.
fn send_pending(
    t: Terminal,
    rows: usize,
    chars: &[u8],
    attrs: &[u8],
    reply: &mut [u8],
    at: usize,
) -> usize
    requires sound { Sound rows (world t chars.now attrs.now) }
    requires room { at + length (pending_reply (world t chars.now attrs.now)) ≤ length reply.old }
    ensures value { result ≡ at + length (pending_reply (world t chars.now attrs.now)) }
    ensures reply_after { reply.new ≡ written reply.old at (pending_reply (world t chars.now attrs.now)) }
{
    match t.pending {
        1 => {
            let message = replies::report_cursor(t.cursor.col, t.cursor.row, b'R');
            cells::write_at(reply, at, &message);
            at + message.len()
        }
        2 => {
            let row = t.cursor.row - t.cursor.top;
            let message = replies::report_cursor(t.cursor.col, row, b'Y');
            cells::write_at(reply, at, &message);
            at + message.len()
        }
        3 => {
            let message = replies::report_status(t.format, t.insert, t.lock);
            cells::write_at(reply, at, &message);
            at + message.len()
        }
        4 => replies::send_block(chars, attrs, t.format, t.cursor.row, reply, at),
        _ => at,
    }
}

// What an action sends, from byte `at` of the reply on; the place past the last byte.
#[tactic(auto, unfolding(crate::specs::Streams::reply_to))]
pub fn send(
    t: Terminal,
    rows: usize,
    chars: &[u8],
    attrs: &[u8],
    a: Action,
    reply: &mut [u8],
    at: usize,
) -> usize
    requires sound { Sound rows (world t chars.now attrs.now) }
    requires room { at + length (reply_to (number_of a) (world t chars.now attrs.now)) ≤ length reply.old }
    ensures value { result ≡ at + length (reply_to (number_of a) (world t chars.now attrs.now)) }
    ensures reply_after { reply.new ≡ written reply.old at (reply_to (number_of a) (world t chars.now attrs.now)) }
{
    match a {
        Action::Ack => {
            cells::write_at(reply, at, &[6u8; 1]);
            at + 1
        }
        Action::Trigger => send_pending(t, rows, chars, attrs, reply, at),
        _ => at,
    }
}
