// The call for host bytes over the plain decisions: byte by byte, with no table and no shorter way.
#![tactic(auto)]

ghost use Rattle.std.specs.Prelude.{◌≡◌, ◌≤◌};
ghost use Rattle.decisions.specs.Decisions.{step_of};
ghost use Rattle.streams.specs.Streams.{host_left, fed_on, fed};
ghost use Rattle.terminal.specs.State.{world, Sound};
ghost use Rattle.plain.specs.Plain.{stepped_to, plainly_fed};

use decisions::Step;
use streams::HostAnswer;
use terminal::{Refusal, Size, Terminal};

// One byte, which the decisions have read: its action, then the reading state and the number after it.
fn step(t: Terminal, rows: usize, chars: &mut [u8], attrs: &mut [u8], d: Step, byte: u8) -> Terminal
    requires { Sound rows (world t chars.old attrs.old) }
    ensures { world result chars.new attrs.new ≡ stepped_to rows (step_of d) byte (world t chars.old attrs.old) }
{
    let mut u = noting::act(t, rows, chars, attrs, d.action, byte % 128);
    u.reading = d.reading;
    u.number = d.number;
    u
}

// The bytes, up to the one whose reply does not fit.
fn feed_on(
    t: Terminal,
    rows: usize,
    chars: &mut [u8],
    attrs: &mut [u8],
    bytes: &[u8],
    reply: &mut [u8],
) -> HostAnswer
    requires { Sound rows (world t chars.old attrs.old) }
    ensures { host_left result chars.new attrs.new reply.new ≡ fed_on rows bytes.now 0 0 (world t chars.old attrs.old) reply.old }
{
    let mut u = t;
    let mut at = 0;
    for (i, &byte) in bytes.iter().enumerate() {
        let d = decisions::read(u.reading, u.number, byte);
        if !streams::has_room(u, rows, chars, attrs, d.action, reply.len() - at) {
            return HostAnswer {
                number: Refusal::Room.number(),
                taken: i,
                written: at,
                state: u,
            };
        }
        at = streams::send(u, rows, chars, attrs, d.action, reply, at);
        u = step(u, rows, chars, attrs, d, byte);
    }
    HostAnswer {
        number: 0,
        taken: bytes.len(),
        written: at,
        state: u,
    }
}

// Host bytes, in a memory of `rows` rows.
pub fn host_on(
    t: Terminal,
    rows: usize,
    chars: &mut [u8],
    attrs: &mut [u8],
    bytes: &[u8],
    reply: &mut [u8],
) -> HostAnswer
    requires { (24 ≤ rows) × (rows ≤ 96) }
    ensures table { host_left result chars.new attrs.new reply.new ≡ fed rows (world t chars.old attrs.old) bytes.now reply.old }
    ensures plain { host_left result chars.new attrs.new reply.new ≡ plainly_fed rows (world t chars.old attrs.old) bytes.now reply.old }
{
    if let Err(refusal) = streams::refuse(t, rows, chars, attrs) {
        return HostAnswer {
            number: refusal.number(),
            taken: 0,
            written: 0,
            state: t,
        };
    }
    feed_on(t, rows, chars, attrs, bytes, reply)
}

// Host bytes, in a memory of a size. Takes any state, any buffers and any bytes; 1 and 2 change nothing, 7 stops before the byte whose reply does not fit.
pub fn host<S: Size>(
    t: Terminal,
    chars: &mut [u8],
    attrs: &mut [u8],
    bytes: &[u8],
    reply: &mut [u8],
) -> HostAnswer
    ensures table { host_left result chars.new attrs.new reply.new ≡ fed S.size (world t chars.old attrs.old) bytes.now reply.old }
    ensures plain { host_left result chars.new attrs.new reply.new ≡ plainly_fed S.size (world t chars.old attrs.old) bytes.now reply.old }
{
    host_on(t, S::rows(), chars, attrs, bytes, reply)
}
