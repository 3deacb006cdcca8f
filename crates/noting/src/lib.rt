// An action with the rows that it changes: they are told before it writes, and then added to those of the state.
#![tactic(auto)]

ghost use Rattle.std.specs.Prelude.{◌≡◌, cond, ◌<◌, length};
ghost use Rattle.changes.specs.Sets.{set_of, rows_of, either};
ghost use Rattle.changes.specs.Differing.{differs, differing_both};
ghost use Rattle.cursor.specs.Cursor.{cell_of};
ghost use Rattle.reading.specs.Action.{number_of};
ghost use Rattle.screen.specs.Page.{page};
ghost use Rattle.screen.specs.Whole.{Whole};
ghost use Rattle.terminal.specs.declared.Terminal.{Terminal};
ghost use Rattle.terminal.specs.State.{world, Sound};
ghost use Rattle.terminal.specs.Acts.{stamps, stamped, acted};
ghost use Rattle.terminal.specs.Noted.{differing_rows, noted};

use changes::Changes;
use cursor::Cursor;
use reading::Action;
use terminal::Terminal;

// Whether a mark or an enhancement changes a cell.
#[tactic(auto, unfolding(terminal::specs::Acts::stamped))]
fn stamp_differs(attrs: &[u8], format: bool, a: Action, v: u8, k: usize) -> bool
    requires { k < length attrs.now }
    ensures { result ≡ differs attrs.now (stamped (number_of a) v format attrs.now k) }
{
    match a {
        Action::Mark1 => looks::mark_differs(attrs, format, 1, k),
        Action::Mark4 => looks::mark_differs(attrs, format, 4, k),
        Action::Mark5 => looks::mark_differs(attrs, format, 5, k),
        Action::Turn2 => looks::turn_differs(attrs, format, 2, k),
        Action::Turn3 => looks::turn_differs(attrs, format, 3, k),
        Action::Turn1 => looks::turn_differs(attrs, format, 1, k),
        _ => looks::enhance_differs(attrs, format, v % 16, k),
    }
}

// The rows that an action changes that is no edit.
fn look_stamp(
    c: Cursor,
    format: bool,
    rows: usize,
    chars: &[u8],
    attrs: &[u8],
    a: Action,
    v: u8,
) -> Changes
    requires { Whole rows (page c chars.now attrs.now) }
    ensures { result ≡ set_of (differing_both rows chars.now attrs.now chars.now (cond (stamps (number_of a)) (stamped (number_of a) v format attrs.now (cell_of c)) attrs.now)) }
{
    if terminal::is_stamp(a) {
        let k = c.cell();
        return Changes::one(c.row, stamp_differs(attrs, format, a, v, k));
    }
    Changes::none()
}

// The rows that an action changes, whatever the rest of the state is.
#[tactic(auto, unfolding(terminal::specs::Acts::acted, terminal::specs::Noted::differing_rows, looks::specs::Looks::changed, terminal::specs::State::fresh_world))]
pub fn look(
    c: Cursor,
    format: bool,
    insert: bool,
    rows: usize,
    chars: &[u8],
    attrs: &[u8],
    a: Action,
    v: u8,
) -> Changes
    requires { Whole rows (page c chars.now attrs.now) }
    ensures { (t : Terminal) → t.cursor ≡ c → t.format ≡ format → t.insert ≡ insert → result ≡ set_of (differing_rows rows (world t chars.now attrs.now) (acted rows (number_of a) v (world t chars.now attrs.now))) }
{
    match a {
        Action::Text => looks::look_type(chars, attrs, rows, c, format, insert, v),
        Action::LineFeed => looks::look_feed(chars, attrs, rows, c, format),
        Action::ClearDisplay => looks::look_clear_display(chars, attrs, rows, c, format),
        Action::ClearLine => looks::look_clear_line(chars, attrs, rows, c, format),
        Action::InsertRow => looks::look_insert_row(chars, attrs, rows, c, format),
        Action::DeleteRow => looks::look_delete_row(chars, attrs, rows, c, format),
        Action::DeleteChar => looks::look_delete_char(chars, attrs, rows, c, format),
        Action::HardReset => looks::look_clear(chars, attrs, rows, 0),
        _ => look_stamp(c, format, rows, chars, attrs, a, v),
    }
}

// The rows of the state with those that an action changes. Where all are set already none is looked at.
fn note(t: Terminal, rows: usize, chars: &[u8], attrs: &[u8], a: Action, v: u8) -> Changes
    requires { Sound rows (world t chars.now attrs.now) }
    ensures { result ≡ set_of (either (rows_of rows t.changes) (differing_rows rows (world t chars.now attrs.now) (acted rows (number_of a) v (world t chars.now attrs.now)))) }
{
    if t.changes.is_all(rows) {
        return t.changes;
    }
    let c = t.cursor;
    t.changes
        .join(look(c, t.format, t.insert, rows, chars, attrs, a, v))
}

// What an action does, its rows noted; `v` is the byte below 128.
pub fn act(
    t: Terminal,
    rows: usize,
    chars: &mut [u8],
    attrs: &mut [u8],
    a: Action,
    v: u8,
) -> Terminal
    requires { Sound rows (world t chars.old attrs.old) }
    ensures { world result chars.new attrs.new ≡ noted rows (world t chars.old attrs.old) (acted rows (number_of a) v (world t chars.old attrs.old)) }
{
    let changes = note(t, rows, chars, attrs, a, v);
    let mut next = t.act(rows, chars, attrs, a, v);
    next.changes = changes;
    next
}
