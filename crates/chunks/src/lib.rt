// A chunk of a file, run on the terminal and told: session records, or a part of a host stream.
#![tactic(auto)]

ghost use Rattle.std.specs.Prelude.{◌≡◌, ◌&&◌, ◌==◌, ◌≤◌, true, length};
ghost use Rattle.terminal.specs.State.{fresh_state};
ghost use Rattle.report.specs.Reports.{reported};

use printing::Output;
use report::ReportAnswer;
use terminal::{Refusal, Terminal};

// What a file is run on: a terminal, its memory of `rows` rows, a room that takes replies or the lines of a session, and the number of the next record.
#[derive(Drop)]
pub struct Machine<'a> {
    rows: usize,
    pub chars: &'a mut [u8],
    pub attrs: &'a mut [u8],
    room: &'a mut [u8],
    pub state: Terminal,
    pub number: u64,
    ghost sized: { (24 ≤ rows) × (rows ≤ 96) },
}

impl<'a> Machine<'a> {
    // A fresh terminal, in memory that is lent.
    pub fn new(
        rows: usize,
        chars: &'a mut [u8],
        attrs: &'a mut [u8],
        room: &'a mut [u8],
    ) -> Machine<'a>
        requires { (24 ≤ rows) × (rows ≤ 96) }
        ensures fresh { result.state ≡ fresh_state rows }
        ensures begun { result.number ≡ 0 }
    {
        Machine {
            rows,
            chars,
            attrs,
            room,
            state: Terminal::fresh_state(rows),
            number: 0,
        }
    }

    // A session's records and their lines, as many to a call as the room takes; `is_plain` is for the plain reader of host bytes.
    pub fn answer(&mut self, out: &mut Output, bytes: &[u8], is_plain: bool) {
        let mut rest = bytes;
        // The calls are counted, so that they end.
        for _ in 0..=bytes.len() {
            let a = sessions::run_records_on(
                self.state,
                self.rows,
                self.chars,
                self.attrs,
                self.number,
                rest,
                self.room,
                is_plain,
            );
            self.state = a.state;
            self.number = a.number;
            self.print_room(out, a.written);
            rest = rest.get(a.taken..).unwrap_or(&[]);
            if rest.is_empty() {
                return;
            }
        }
    }

    // The end line of a session.
    pub fn end(&mut self, out: &mut Output) {
        let size = sessions::write_end(self.state.cursor, self.room);
        self.print_room(out, size);
    }

    fn print_room(&self, out: &mut Output, size: usize) {
        if let Some(lines) = self.room.get(..size) {
            out.text(lines);
        }
    }

    // Host bytes, with the whole room for each call until all is taken; what an earlier reply left in it is written over, and never told.
    pub fn feed<F: FnMut(&[u8])>(&mut self, bytes: &[u8], mut tell: F)
        requires { F.IsAlwaysCallable tell }
    {
        let mut rest = bytes;
        // The calls are counted, so that they end.
        for _ in 0..=bytes.len() {
            let a = host::host_on(
                self.state, self.rows, self.chars, self.attrs, rest, self.room,
            );
            self.state = a.state;
            if let Some(reply) = self.room.get(..a.written) {
                tell(reply);
            }
            if a.number != Refusal::Room.number() {
                return;
            }
            rest = rest.get(a.taken..).unwrap_or(&[]);
        }
    }

    // The records of 84 bytes; a rest is left.
    pub fn run(&mut self, bytes: &[u8]) {
        for record in bytes.chunks_exact(84) {
            self.run_record(record, |_| {});
        }
    }

    // The same, and a line of the reply bytes of each.
    pub fn list_replies(&mut self, out: &mut Output, bytes: &[u8]) {
        for record in bytes.chunks_exact(84) {
            let mut line = ReplyLine::begin(out, self.number);
            self.run_record(record, |reply| line.add(out, reply));
            out.text(b"\n");
        }
    }

    // The same, and a line of the rows that each changed; then none is set.
    pub fn list_changes(&mut self, out: &mut Output, bytes: &[u8]) {
        for record in bytes.chunks_exact(84) {
            let number = self.number;
            let answer = self.run_record(record, |_| {});
            let changes = self.state.changes;
            let told = self.report();
            listing::print_changes(
                out, number, answer, told.count, told.first, changes, self.rows,
            );
        }
    }

    // The rows that changed are reported, and none is set.
    pub fn report(&mut self) -> ReportAnswer
        ensures told { result ≡ reported self.old.rows self.old.state }
        ensures state_after { self.new.state ≡ (reported self.old.rows self.old.state).state }
    {
        let told = report::report_on(self.state, self.rows);
        self.state = told.state;
        told
    }

    // One record, with the whole room for each call until it is done, and its answer.
    fn run_record<F: FnMut(&[u8])>(&mut self, record: &[u8], mut tell: F) -> u8
        requires { F.IsAlwaysCallable tell }
    {
        self.number = sessions::next(self.number);
        let mut at = 0;
        // The calls are counted, so that they end.
        for _ in 0..=record.len() {
            let a = records::run_from_on(
                self.state, self.rows, self.chars, self.attrs, record, at, self.room, false,
            );
            self.state = a.state;
            if let Some(reply) = self.room.get(..a.written) {
                tell(reply);
            }
            if a.number != Refusal::Room.number() {
                return a.number;
            }
            at = a.at;
        }
        Refusal::Room.number()
    }
}

// A line of reply bytes, and whether it has none yet.
#[derive(Clone, Copy)]
pub struct ReplyLine {
    is_empty: bool,
}

impl ReplyLine {
    // The start of the line.
    pub fn begin(out: &mut Output, number: u64) -> ReplyLine
        ensures { result.is_empty ≡ true }
    {
        listing::print_reply(out, number);
        ReplyLine { is_empty: true }
    }

    // Some bytes more.
    pub fn add(&mut self, out: &mut Output, reply: &[u8])
        ensures { self.new.is_empty ≡ (self.old.is_empty && length reply.now == 0) }
    {
        listing::print_part(out, reply, self.is_empty);
        self.is_empty = self.is_empty && reply.is_empty();
    }
}
