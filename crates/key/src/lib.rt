// The call for a key.
#![tactic(auto)]

mod codes;

ghost use Rattle.std.specs.Prelude.{◌≡◌, Bool, cond, not, ◌*◌, ◌%◌, ◌≤◌, ◌<◌, eqb, length, set, MatchOption};
ghost use Rattle.cells.specs.Range.{within};
ghost use Rattle.changes.specs.Sets.{set_of};
ghost use Rattle.cursor.specs.Cursor.{InPlace};
ghost use Rattle.fields.specs.Fields.{marks, target};
ghost use Rattle.reading.specs.Action.{number_of, rest};
ghost use Rattle.terminal.specs.State.{world, Sound};
ghost use Rattle.terminal.specs.Acts.{tabbed_by, back_tabbed_by, acted};
ghost use Rattle.terminal.specs.Noted.{differing_rows, noted};
ghost use Rattle.key.specs.Keys.{key_action, enter, key_refusal, key_left, keyed};
ghost use Rattle.key.specs.Aim.{aim_refusal};
ghost use Rattle.key.specs.Pressed.{pressed, edits};

use changes::Changes;
use codes::Key;
use cursor::Cursor;
use reading::Action;
use terminal::{Refusal, Size, Terminal};

// The number, which stays a byte as docs/CALLS.md has it, the bytes written to the reply, and the state afterwards.
#[derive(Clone, Copy)]
pub struct KeyAnswer {
    pub number: u8,
    pub written: usize,
    pub state: Terminal,
}

// What follows goes by the code, not by `Key`: a form by `Key` was tried in three spellings and took twice the instructions a key, since the state was copied on each path.

// Whether a code is a text key's.
fn is_text(code: u16) -> bool
    ensures { result ≡ within 32 126 code }
{
    32 <= code && code <= 126
}

// Whether a code is listed: a text key's, or 256 to 273.
fn is_listed(code: u16) -> bool
    ensures { (insert : Bool) → eqb (key_action code insert) rest ≡ not result }
{
    Key::try_from(code).is_ok()
}

// The number of a text key with format on.
fn refuse_text(attrs: &[u8], cell: usize, v: u8) -> u8
    requires { cell < length attrs.now }
    ensures { result ≡ aim_refusal v (marks attrs.now) (target (marks attrs.now) cell) }
{
    let Some(k) = fields::find_target(attrs, cell) else {
        return Refusal::Target.number();
    };
    let kind = fields::kind_at(attrs, k);
    if fields::allows(kind, v) {
        0
    } else {
        Refusal::Character.number()
    }
}

// The number of a key: 0 where it is to be done.
fn refuse(t: Terminal, rows: usize, chars: &[u8], attrs: &[u8], code: u16, room: usize) -> u8
    requires { (24 ≤ rows) × (rows ≤ 96) }
    ensures { result ≡ key_refusal rows (world t chars.now attrs.now) code room }
{
    if !terminal::is_sized(rows, chars, attrs) {
        return Refusal::Size.number();
    }
    if !t.is_good(rows) {
        return Refusal::State.number();
    }
    let unlisted = !is_listed(code);
    let barred = t.is_barred();
    if unlisted {
        return Refusal::Key.number();
    }
    if barred {
        return Refusal::Barred.number();
    }
    if is_text(code) {
        if t.format {
            return refuse_text(attrs, t.cursor.cell(), (code % 256) as u8);
        }
        return 0;
    }
    if code == 273 {
        if room < 1 {
            return Refusal::Room.number();
        }
    }
    0
}

// Where tab goes: by fields with format on, by tab stops with format off. Not by `Terminal::tab`, so that the state is not copied.
fn tab(t: Terminal, rows: usize, attrs: &[u8]) -> Cursor
    requires memory { (rows ≤ 96) × (length attrs.now ≡ rows * 80) }
    requires place { InPlace rows t.cursor }
    ensures { result ≡ tabbed_by rows attrs.now t }
{
    let c = t.cursor;
    if t.format {
        return screen::tab_in(attrs, c);
    }
    let tabs = t.tabs;
    c.tab(rows, tabs)
}

// Where back tab goes.
fn back_tab(t: Terminal, rows: usize, attrs: &[u8]) -> Cursor
    requires memory { (rows ≤ 96) × (length attrs.now ≡ rows * 80) }
    requires place { InPlace rows t.cursor }
    ensures { result ≡ back_tabbed_by attrs.now t }
{
    let c = t.cursor;
    if t.format {
        return screen::back_tab_in(attrs, c);
    }
    let tabs = t.tabs;
    c.back_tab(tabs)
}

// What a key does to the memory, and where the cursor is after it. A code that is not listed does nothing.
fn strike(t: Terminal, rows: usize, chars: &mut [u8], attrs: &mut [u8], code: u16) -> Cursor
    requires { (code ≡ 0 → ⊥) → Sound rows (world t chars.old attrs.old) }
    ensures { world (pressed code result t) chars.new attrs.new ≡ acted rows (key_action code t.insert) (code % 256) (world t chars.old attrs.old) }
{
    if is_text(code) {
        let c = t.cursor;
        let v = (code % 256) as u8;
        return screen::type_char(chars, attrs, rows, c, t.format, t.insert, v);
    }
    match code {
        256 => t.cursor.go_up(),
        257 => t.cursor.go_down(rows),
        258 => t.cursor.go_right(rows),
        259 => t.cursor.go_left(),
        260 => screen::go_home(attrs, t.format, 3),
        261 => screen::go_home_down(chars, rows, t.cursor),
        262 => tab(t, rows, attrs),
        263 => back_tab(t, rows, attrs),
        264 => screen::clear_display(chars, attrs, rows, t.cursor, t.format),
        265 => screen::clear_line(chars, attrs, rows, t.cursor, t.format),
        266 => t.cursor,
        267 => {
            screen::delete_char(chars, attrs, rows, t.cursor, t.format);
            t.cursor
        }
        268 => t.cursor.go_in(0),
        269 => t.cursor.rise(rows, 1),
        270 => t.cursor.fall(1),
        271 => t.cursor.rise(rows, 24),
        272 => t.cursor.fall(24),
        273 => t.cursor,
        _ => t.cursor,
    }
}

// The action by which a key writes: text, the two clears and delete character alone do.
fn edit_of(code: u16) -> Option<Action>
    ensures { MatchOption result (edits code ≡ rest) (λ a. (number_of a ≡ edits code) × (edits code ≡ rest → ⊥)) }
{
    if is_text(code) {
        return Some(Action::Text);
    }
    match code {
        264 => Some(Action::ClearDisplay),
        265 => Some(Action::ClearLine),
        267 => Some(Action::DeleteChar),
        _ => None,
    }
}

// The rows that a key will change. A code that is not listed changes none.
fn look(t: Terminal, rows: usize, chars: &[u8], attrs: &[u8], code: u16) -> Changes
    requires { (code ≡ 0 → ⊥) → Sound rows (world t chars.now attrs.now) }
    ensures { result ≡ set_of (differing_rows rows (world t chars.now attrs.now) (acted rows (key_action code t.insert) (code % 256) (world t chars.now attrs.now))) }
{
    let Some(a) = edit_of(code) else {
        return Changes::none();
    };
    let c = t.cursor;
    noting::look(
        c,
        t.format,
        t.insert,
        rows,
        chars,
        attrs,
        a,
        (code % 256) as u8,
    )
}

// Insert mode after a key: 266 changes it over.
fn switch_insert(code: u16, insert: bool) -> bool
    ensures { result ≡ cond (eqb code 266) (not insert) insert }
{
    if code == 266 { !insert } else { insert }
}

// The pending transfer after a key: ENTER asks for a block.
fn ask(code: u16, pending: u8) -> u8
    ensures { result ≡ cond (eqb code enter) 4 pending }
{
    if code == 273 { 4 } else { pending }
}

// What a key does; code 0 leaves all. The state is put together here alone, so that it is not copied from call to call.
fn press(mut t: Terminal, rows: usize, chars: &mut [u8], attrs: &mut [u8], code: u16) -> Terminal
    requires { (code ≡ 0 → ⊥) → Sound rows (world t chars.old attrs.old) }
    ensures { world result chars.new attrs.new ≡ cond (eqb code 0) (world t chars.old attrs.old) (noted rows (world t chars.old attrs.old) (acted rows (key_action code t.insert) (code % 256) (world t chars.old attrs.old))) }
{
    let joined = t.changes.join(look(t, rows, chars, attrs, code));
    let moved = strike(t, rows, chars, attrs, code);
    t.cursor = moved;
    t.insert = switch_insert(code, t.insert);
    t.pending = ask(code, t.pending);
    t.changes = joined;
    t
}

// How many bytes a key writes to the reply: ENTER one.
fn measure(code: u16) -> usize
    ensures { result ≡ cond (eqb code enter) 1 0 }
{
    if code == 273 { 1 } else { 0 }
}

// What a key writes to the reply: ENTER byte 18.
fn send(code: u16, reply: &mut [u8])
    requires { code ≡ 273 → 0 < length reply.old }
    ensures { reply.new ≡ cond (eqb code enter) (set reply.old 0 18) reply.old }
{
    if code == 273 {
        reply[0] = 18;
    }
}

// The code that is done: 0, which is not listed and does nothing, where the key is refused.
fn admit(n: u8, code: u16) -> u16
    ensures { result ≡ cond (eqb n 0) code 0 }
{
    if n == 0 { code } else { 0 }
}

// A key, in a memory of `rows` rows. A refused key goes the same way, so that the answer is put together in one place.
pub fn key_on(
    t: Terminal,
    rows: usize,
    chars: &mut [u8],
    attrs: &mut [u8],
    code: u16,
    reply: &mut [u8],
) -> KeyAnswer
    requires { (24 ≤ rows) × (rows ≤ 96) }
    ensures { key_left result chars.new attrs.new reply.new ≡ keyed rows (world t chars.old attrs.old) reply.old code }
{
    let n = refuse(t, rows, chars, attrs, code, reply.len());
    let done = admit(n, code);
    let next = press(t, rows, chars, attrs, done);
    send(done, reply);
    KeyAnswer {
        number: n,
        written: measure(done),
        state: next,
    }
}

// A key, in a memory of a size. Takes any state, any buffers and any code; a refusal changes nothing. ENTER writes byte 18 to the reply.
pub fn key<S: Size>(
    t: Terminal,
    chars: &mut [u8],
    attrs: &mut [u8],
    code: u16,
    reply: &mut [u8],
) -> KeyAnswer
    ensures { key_left result chars.new attrs.new reply.new ≡ keyed S.size (world t chars.old attrs.old) reply.old code }
{
    key_on(t, S::rows(), chars, attrs, code, reply)
}
