// Calls of host, operator or a reader, each with its line. A call has 85 bytes: the reader's number, 0 for none, and a session record, of kind R where a reader reads a field back.
#![tactic(auto)]

ghost use Rattle.std.specs.Prelude.{◌≡◌, ◌*◌, ◌≤◌, length};
ghost use Rattle.terminal.specs.State.{fresh_state};
ghost use Rattle.sessions.specs.Session.{next as Session·next};

use printing::Output;
use terminal::{Refusal, Terminal};

// What calls are made on: a terminal, its memory of `rows` rows, who owns its fields, a room for what is sent or read, and the number of the next call.
#[derive(Drop)]
pub struct Machine<'a> {
    rows: usize,
    chars: &'a mut [u8],
    attrs: &'a mut [u8],
    owners: &'a [u8],
    reply: &'a mut [u8],
    state: Terminal,
    number: u64,
    ghost sized: { (24 ≤ rows) × (rows ≤ 96) × (length reply.now ≡ rows * 160) },
}

// What a call gave: its answer and how many bytes are sent or would be read, or how long the text is that was read.
#[derive(Clone, Copy)]
enum Made {
    Answer(u8, usize),
    Text(usize),
}

impl<'a> Machine<'a> {
    // A fresh terminal, in memory that is lent.
    pub fn new(
        rows: usize,
        chars: &'a mut [u8],
        attrs: &'a mut [u8],
        owners: &'a [u8],
        reply: &'a mut [u8],
    ) -> Machine<'a>
        requires { (24 ≤ rows) × (rows ≤ 96) × (length reply.old ≡ rows * 160) }
        ensures fresh { result.state ≡ fresh_state rows }
        ensures begun { result.number ≡ 0 }
    {
        Machine {
            rows,
            chars,
            attrs,
            owners,
            reply,
            state: Terminal::fresh_state(rows),
            number: 0,
        }
    }

    // The call, and its line; fewer than 85 bytes are a short one.
    pub fn run(&mut self, out: &mut Output, bytes: &[u8])
        ensures { self.new.number ≡ Session·next self.old.number }
    {
        let number = self.number;
        match self.make(bytes) {
            Made::Answer(answer, size) => writeln!(out, "{number} {answer} {size}"),
            Made::Text(size) => {
                write!(out, "{number} 0 {size}");
                if let Some(text) = self.reply.get(..size) {
                    out.text(b" |");
                    out.text(text);
                    out.text(b"|");
                }
                out.text(b"\n");
            }
        }
        self.number = sessions::next(number);
    }

    // The end line: the cursor's row and column, and the window's top.
    pub fn end(&self, out: &mut Output) {
        let cursor = self.state.cursor;
        writeln!(out, "end {} {} {}", cursor.row, cursor.col, cursor.top);
    }

    fn make(&mut self, bytes: &[u8]) -> Made {
        if bytes.len() < 85 {
            return Made::Answer(Refusal::Part.number(), 0);
        }
        let record = &bytes[1..85];
        match bytes[0] {
            0 => self.run_record(record),
            reader => self.make_as(reader, record),
        }
    }

    // A session record, which names no reader.
    fn run_record(&mut self, record: &[u8]) -> Made {
        let ran = records::run_on(
            self.state, self.rows, self.chars, self.attrs, record, self.reply, false,
        );
        self.state = ran.state;
        Made::Answer(ran.answer, ran.replied)
    }

    // A reader's record: P its post, R a reading back; 11 for another form.
    fn make_as(&mut self, reader: u8, bytes: &[u8]) -> Made
        requires { length bytes.now ≡ 84 }
    {
        let size = usize::from(bytes[1]);
        if 80 < size {
            return Made::Answer(Refusal::Form.number(), 0);
        }
        let field = records::number_of(bytes);
        let end = 4 + size;
        match bytes[0] {
            b'P' if records::is_zero(bytes, end) => self.post(reader, field, &bytes[4..end]),
            b'R' if records::is_zero(bytes, 4) => self.read(reader, field, size),
            _ => Made::Answer(Refusal::Form.number(), 0),
        }
    }

    fn post(&mut self, reader: u8, field: usize, text: &[u8]) -> Made {
        let posted = readers::post_as_on(
            self.state,
            self.rows,
            self.chars,
            self.attrs,
            self.owners,
            reader,
            field,
            text,
        );
        self.state = posted.state;
        Made::Answer(posted.number, 0)
    }

    // The text goes to the start of the room, of which it gets `size` bytes.
    fn read(&mut self, reader: u8, field: usize, size: usize) -> Made
        requires { size ≤ 80 }
    {
        let room = &mut self.reply[..size];
        let read = readers::read_back_on(
            self.state,
            self.rows,
            self.chars,
            self.attrs,
            self.owners,
            reader,
            field,
            room,
        );
        match read.number {
            0 => Made::Text(read.written),
            answer => Made::Answer(answer, read.written),
        }
    }
}

#[cfg(test)]
mod tests {
    use std::process::Abort;
    use terminal::{Rows48, Rows96, Size};

    // The example of docs/CALLS.md: a form, a tag, a block transfer; then host lock, and who may read and post.
    fn run_example<S: Size>(rt: &impl Abort, chars: &mut [u8], attrs: &mut [u8], reply: &mut [u8]) {
        let f = terminal::fresh::<S>(chars, attrs);
        let a = host::host::<S>(f.state, chars, attrs, b"\x1b[\x1b&a4C\x1b]\x1bW", reply);
        let b = post::post::<S>(a.state, chars, attrs, 0, b"T17");
        let c = host::host::<S>(b.state, chars, attrs, b"\x1bd\x11", reply);
        assert_eq!(rt; (f.number, a.number, b.number, c.number), (0, 0, 0, 0));
        assert_eq!(rt; c.written, 5);
        assert!(rt; reply.starts_with(b"T17 \x1e"));
        let mut owners = [0u8; 256];
        owners[0] = 2;
        let mut text = [0u8; 80];
        let d = host::host::<S>(c.state, chars, attrs, b"\x1bc", reply);
        let e = readers::read_back::<S>(d.state, chars, attrs, &owners, 2, 0, &mut text);
        assert_eq!(rt; (e.number, e.written), (0, 4));
        assert!(rt; text.starts_with(b"T17 "));
        let g = readers::read_back::<S>(d.state, chars, attrs, &owners, 1, 0, &mut text);
        let h = readers::post_as::<S>(d.state, chars, attrs, &owners, 2, 0, b"T18");
        assert_eq!(rt; (g.number, h.number), (13, 4));
    }

    // The other calls, from a fresh terminal: all its rows are set, a letter goes to the first cell, and a record has its line.
    fn run_others<S: Size>(rt: &impl Abort, chars: &mut [u8], attrs: &mut [u8], reply: &mut [u8]) {
        let f = terminal::fresh::<S>(chars, attrs);
        let told = report::report::<S>(f.state);
        assert_eq!(rt;
            (told.number, told.count as usize, told.first),
            (0, S::rows(), 0)
        );
        let a = plain::host::<S>(told.state, chars, attrs, b"A", reply);
        let b = key::key::<S>(a.state, chars, attrs, 66, reply);
        assert_eq!(rt; (a.number, a.taken, b.number, b.written), (0, 1, 0, 0));
        assert!(rt; chars.starts_with(b"AB "));
        let told = report::report::<S>(b.state);
        assert_eq!(rt; (told.number, told.count, told.first), (0, 1, 0));
        let mut record = [0u8; 84];
        record[0] = b'H';
        record[1] = 1;
        record[4] = b'C';
        let c = records::run::<S>(told.state, chars, attrs, &record);
        let d = records::run_from::<S>(c.state, chars, attrs, &record, 0, reply);
        assert_eq!(rt; (c.answer, c.replied, d.number, d.at), (0, 0, 0, 1));
        let mut lines = [0u8; 63];
        let e = sessions::run_records::<S>(d.state, chars, attrs, 7, &record, &mut lines);
        assert_eq!(rt; (e.taken, e.written, e.number), (84, 6, 8));
        assert!(rt; lines.starts_with(b"7 0 0\n"));
        assert!(rt; chars.starts_with(b"ABCCC "));
    }

    #[test]
    fn calls_run_on_96_rows(rt: HostRuntime) {
        let mut chars = [0u8; 7680];
        let mut attrs = [0u8; 7680];
        let mut reply = [0u8; 15360];
        run_example::<Rows96>(&rt, &mut chars, &mut attrs, &mut reply);
        run_others::<Rows96>(&rt, &mut chars, &mut attrs, &mut reply);
        assert_eq!(rt; terminal::fresh::<Rows48>(&mut chars, &mut attrs).number, 1);
    }

    #[test]
    fn calls_run_on_48_rows(rt: HostRuntime) {
        let mut chars = [0u8; 3840];
        let mut attrs = [0u8; 3840];
        let mut reply = [0u8; 7680];
        run_example::<Rows48>(&rt, &mut chars, &mut attrs, &mut reply);
        run_others::<Rows48>(&rt, &mut chars, &mut attrs, &mut reply);
        assert_eq!(rt; terminal::fresh::<Rows96>(&mut chars, &mut attrs).number, 1);
    }
}
