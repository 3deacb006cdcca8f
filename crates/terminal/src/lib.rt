// The terminal's state, by value, with one method an action: keys and host bytes share them. `rows` is the number of rows of the memory, 24 to 96.
#![tactic(auto)]

mod refusal;
mod size;

ghost use Rattle.std.specs.Prelude.{◌≡◌, true, false, cond, not, [], ◌∷◌, ◌*◌, ◌≤◌, ◌<◌, length, replicate};
ghost use Rattle.cursor.specs.Cursor.{cell_of, gone_up, gone_down, gone_left, gone_right, in_column, risen, fallen, InPlace};
ghost use Rattle.cursor.specs.Addressing.{to_column, to_row, to_window_row};
ghost use Rattle.fields.specs.Fields.{marks};
ghost use Rattle.reading.specs.Action.{number_of};
ghost use Rattle.screen.specs.Edits.{homed, homed_down, line_fed, typed, display_cleared, line_cleared, char_deleted, row_inserted, row_deleted};
ghost use Rattle.terminal.specs.State.{world, stated, placed, stopped, page_of, paged, fresh_state, fresh_world, is_good, is_sized, Sound, barred};
ghost use Rattle.terminal.specs.Refusals.{◌when◌, first_refusal};
ghost use Rattle.terminal.specs.Numbers.{answered};
ghost use Rattle.terminal.specs.Fresh.{fresh_left, freshened};
ghost use Rattle.terminal.specs.Acts.{formatted, inserting, locked, asking, softly_reset, tab_set, switched, tabbed_by, back_tabbed_by, steered, stamps, stamped, acted};

use changes::Changes;
use cursor::Cursor;
use reading::{Action, Number};
pub use refusal::{Refusal, answer};
pub use size::{Rows48, Rows96, Size};

// The state. `pending` is 0 none, 1 absolute cursor, 2 window cursor, 3 status, 4 block; `reading` is the reading state, 0 to 6; `changes` has the rows that changed.
// Both stay numbers, and the sign in `number` too: a call takes any state, and `is_good` tests it.
#[derive(Clone, Copy)]
pub struct Terminal {
    pub cursor: Cursor,
    pub format: bool,
    pub insert: bool,
    pub lock: bool,
    pub pending: u8,
    pub reading: u8,
    pub number: Number,
    pub tabs: [bool; 80],
    pub changes: Changes,
}

impl Terminal {
    // A fresh state: all 0 and off, all rows set.
    pub fn fresh_state(rows: usize) -> Terminal
        requires { rows ≤ 96 }
        ensures { result ≡ fresh_state rows }
    {
        Terminal {
            cursor: Cursor {
                row: 0,
                col: 0,
                top: 0,
            },
            format: false,
            insert: false,
            lock: false,
            pending: 0,
            reading: 0,
            number: Number::default(),
            tabs: [false; 80],
            changes: Changes::all(rows),
        }
    }

    // Whether the state is good.
    #[tactic(auto, unfolding(crate::specs::State::is_good))]
    pub fn is_good(self, rows: usize) -> bool
        requires { (24 ≤ rows) × (rows ≤ 96) }
        ensures { result ≡ is_good rows self }
    {
        self.cursor.is_placed(rows)
            && self.pending < 5
            && self.reading < 7
            && self.number.is_sound(self.reading)
            && self.changes.is_good(rows)
    }

    // Whether host lock is on or a transfer is pending.
    #[tactic(auto, unfolding(crate::specs::State::barred))]
    pub fn is_barred(self) -> bool
        ensures { result ≡ barred self }
    {
        self.lock || self.pending != 0
    }
}

// Whether both memories have `rows` rows of 80 cells.
#[tactic(auto, unfolding(crate::specs::State::is_sized))]
pub fn is_sized(rows: usize, chars: &[u8], attrs: &[u8]) -> bool
    requires { rows ≤ 96 }
    ensures { result ≡ is_sized rows chars.now attrs.now }
{
    chars.len() == rows * 80 && attrs.len() == rows * 80
}

// The tests that calls begin with.
impl Terminal {
    // Refuses memories of another size, and a state that is not good, in this order.
    pub fn check(self, rows: usize, chars: &[u8], attrs: &[u8]) -> Result<(), Refusal>
        requires { (24 ≤ rows) × (rows ≤ 96) }
        ensures { answered result ≡ first_refusal ((1 when not (is_sized rows chars.now attrs.now)) ∷ (2 when not (is_good rows self)) ∷ []) }
    {
        if !is_sized(rows, chars, attrs) {
            return Err(Refusal::Size);
        }
        if !self.is_good(rows) {
            return Err(Refusal::State);
        }
        Ok(())
    }
}

// Modes, pending transfers and tab stops.
impl Terminal {
    pub fn set_insert(mut self, on: bool) -> Terminal
        ensures { result ≡ inserting on self }
    {
        self.insert = on;
        self
    }

    pub fn set_format(mut self, on: bool) -> Terminal
        ensures { result ≡ formatted on self }
    {
        self.format = on;
        self
    }

    pub fn set_lock(mut self, on: bool) -> Terminal
        ensures { result ≡ locked on self }
    {
        self.lock = on;
        self
    }

    pub fn ask(mut self, pending: u8) -> Terminal
        ensures { result ≡ asking pending self }
    {
        self.pending = pending;
        self
    }

    pub fn reset_soft(mut self) -> Terminal
        ensures { result ≡ softly_reset self }
    {
        self.insert = false;
        self.lock = false;
        self.pending = 0;
        self
    }

    pub fn set_tab(mut self, on: bool) -> Terminal
        requires { self.cursor.col < 80 }
        ensures { result ≡ tab_set on self }
    {
        let col = self.cursor.col;
        self.tabs[col] = on;
        self
    }

    pub fn clear_tabs(mut self) -> Terminal
        ensures { result ≡ stopped self (replicate 80 false) }
    {
        self.tabs = [false; 80];
        self
    }

    // What an action does that neither edits the memory nor moves the cursor.
    #[tactic(auto, unfolding(crate::specs::Acts::switched))]
    fn switch(self, a: Action) -> Terminal
        requires { self.cursor.col < 80 }
        ensures { result ≡ switched (number_of a) self }
    {
        match a {
            Action::InsertOn => self.set_insert(true),
            Action::InsertOff => self.set_insert(false),
            Action::FormatOn => self.set_format(true),
            Action::FormatOff => self.set_format(false),
            Action::SetTab => self.set_tab(true),
            Action::ClearTab => self.set_tab(false),
            Action::ClearTabs => self.clear_tabs(),
            Action::AskAbsolute => self.ask(1),
            Action::AskWindow => self.ask(2),
            Action::AskStatus => self.ask(3),
            Action::AskBlock => self.ask(4),
            Action::Trigger => self.ask(0),
            Action::LockOff => self.set_lock(false),
            Action::LockOn => self.set_lock(true),
            Action::SoftReset => self.reset_soft(),
            _ => self,
        }
    }
}

// Moves of the cursor.
impl Terminal {
    pub fn move_up(mut self) -> Terminal
        ensures { result ≡ placed self (gone_up self.cursor) }
    {
        self.cursor = self.cursor.go_up();
        self
    }

    pub fn move_down(mut self, rows: usize) -> Terminal
        requires { (24 ≤ rows) × (rows ≤ 96) }
        ensures { result ≡ placed self (gone_down rows self.cursor) }
    {
        self.cursor = self.cursor.go_down(rows);
        self
    }

    pub fn move_right(mut self, rows: usize) -> Terminal
        requires bounds { rows ≤ 96 }
        requires in_place { InPlace rows self.cursor }
        ensures { result ≡ placed self (gone_right rows self.cursor) }
    {
        self.cursor = self.cursor.go_right(rows);
        self
    }

    pub fn move_left(mut self, rows: usize) -> Terminal
        requires bounds { rows ≤ 96 }
        requires in_place { InPlace rows self.cursor }
        ensures { result ≡ placed self (gone_left self.cursor) }
    {
        self.cursor = self.cursor.go_left();
        self
    }

    pub fn move_column0(mut self) -> Terminal
        ensures { result ≡ placed self (in_column 0 self.cursor) }
    {
        self.cursor = self.cursor.go_in(0);
        self
    }

    // Home, to the first field whose mark is 1 to `highest`.
    pub fn move_home(mut self, attrs: &[u8], highest: u8) -> Terminal
        ensures { result ≡ placed self (homed self.format highest (marks attrs.now)) }
    {
        self.cursor = screen::go_home(attrs, self.format, highest);
        self
    }

    pub fn move_home_down(mut self, rows: usize, chars: &[u8]) -> Terminal
        requires { 0 < rows }
        ensures { result ≡ placed self (homed_down rows chars.now self.cursor) }
    {
        self.cursor = screen::go_home_down(chars, rows, self.cursor);
        self
    }

    pub fn tab(mut self, rows: usize, attrs: &[u8]) -> Terminal
        requires sized { (rows ≤ 96) × (length attrs.now ≡ rows * 80) }
        requires in_place { InPlace rows self.cursor }
        ensures { result ≡ placed self (tabbed_by rows attrs.now self) }
    {
        if self.format {
            self.cursor = screen::tab_in(attrs, self.cursor);
            return self;
        }
        let tabs = self.tabs;
        self.cursor = self.cursor.tab(rows, tabs);
        self
    }

    pub fn back_tab(mut self, rows: usize, attrs: &[u8]) -> Terminal
        requires sized { (rows ≤ 96) × (length attrs.now ≡ rows * 80) }
        requires in_place { InPlace rows self.cursor }
        ensures { result ≡ placed self (back_tabbed_by attrs.now self) }
    {
        if self.format {
            self.cursor = screen::back_tab_in(attrs, self.cursor);
            return self;
        }
        let tabs = self.tabs;
        self.cursor = self.cursor.back_tab(tabs);
        self
    }

    // Roll up by 1, next page by 24.
    pub fn roll_up(mut self, rows: usize, k: usize) -> Terminal
        requires bounds { rows ≤ 96 }
        requires in_place { InPlace rows self.cursor }
        ensures { result ≡ placed self (risen rows k self.cursor) }
    {
        self.cursor = self.cursor.rise(rows, k);
        self
    }

    // Roll down by 1, previous page by 24.
    pub fn roll_down(mut self, rows: usize, k: usize) -> Terminal
        requires { InPlace rows self.cursor }
        ensures { result ≡ placed self (fallen k self.cursor) }
    {
        self.cursor = self.cursor.fall(k);
        self
    }

    pub fn address_column(mut self) -> Terminal
        requires { (self.cursor.col < 80) × (self.number.value ≤ 999) }
        ensures { result ≡ placed self (to_column self.number.sign self.number.value self.cursor) }
    {
        self.cursor = self.cursor.to_column(self.number.sign, self.number.value);
        self
    }

    pub fn address_row(mut self, rows: usize) -> Terminal
        requires bounds { (rows ≤ 96) × (self.number.value ≤ 999) }
        requires in_place { InPlace rows self.cursor }
        ensures { result ≡ placed self (to_row rows self.number.sign self.number.value self.cursor) }
    {
        self.cursor = self
            .cursor
            .to_row(rows, self.number.sign, self.number.value);
        self
    }

    pub fn address_window(mut self, rows: usize) -> Terminal
        requires bounds { (rows ≤ 96) × (self.number.value ≤ 999) }
        requires in_place { InPlace rows self.cursor }
        ensures { result ≡ placed self (to_window_row rows self.number.sign self.number.value self.cursor) }
    {
        self.cursor = self
            .cursor
            .to_window_row(rows, self.number.sign, self.number.value);
        self
    }

    // What an action does that leaves the memory.
    #[tactic(auto, unfolding(crate::specs::Acts::steered))]
    fn steer(self, rows: usize, chars: &[u8], attrs: &[u8], a: Action) -> Terminal
        requires { Sound rows (world self chars.now attrs.now) }
        ensures { result ≡ steered rows (number_of a) (world self chars.now attrs.now) }
    {
        match a {
            Action::Up => self.move_up(),
            Action::Down => self.move_down(rows),
            Action::Right => self.move_right(rows),
            Action::Left => self.move_left(rows),
            Action::Column0 => self.move_column0(),
            Action::Home => self.move_home(attrs, 3),
            Action::HomeAll => self.move_home(attrs, 4),
            Action::HomeDown => self.move_home_down(rows, chars),
            Action::Tab => self.tab(rows, attrs),
            Action::BackTab => self.back_tab(rows, attrs),
            Action::RollUp => self.roll_up(rows, 1),
            Action::RollDown => self.roll_down(rows, 1),
            Action::NextPage => self.roll_up(rows, 24),
            Action::PrevPage => self.roll_down(rows, 24),
            Action::ColumnOn | Action::ColumnEnd => self.address_column(),
            Action::RowOn | Action::RowEnd => self.address_row(rows),
            Action::WindowOn | Action::WindowEnd => self.address_window(rows),
            _ => self.switch(a),
        }
    }
}

// Whether an action sets or turns a mark or sets an enhancement.
#[tactic(auto, unfolding(crate::specs::Acts::stamps))]
pub fn is_stamp(a: Action) -> bool
    ensures { result ≡ stamps (number_of a) }
{
    matches!(
        a,
        Action::Mark1
            | Action::Mark4
            | Action::Mark5
            | Action::Turn2
            | Action::Turn3
            | Action::Turn1
            | Action::Enhance
    )
}

// Edits of the memory.
impl Terminal {
    pub fn type_text(mut self, rows: usize, chars: &mut [u8], attrs: &mut [u8], v: u8) -> Terminal
        requires { Sound rows (world self chars.old attrs.old) }
        ensures { world result chars.new attrs.new ≡ paged (world self chars.old attrs.old) (typed rows self.format self.insert v (page_of (world self chars.old attrs.old))) }
    {
        self.cursor = screen::type_char(
            chars,
            attrs,
            rows,
            self.cursor,
            self.format,
            self.insert,
            v,
        );
        self
    }

    pub fn feed_line(mut self, rows: usize, chars: &mut [u8], attrs: &mut [u8]) -> Terminal
        requires { Sound rows (world self chars.old attrs.old) }
        ensures { world result chars.new attrs.new ≡ paged (world self chars.old attrs.old) (line_fed rows self.format (page_of (world self chars.old attrs.old))) }
    {
        self.cursor = screen::feed_line(chars, attrs, rows, self.cursor, self.format);
        self
    }

    pub fn clear_display(mut self, rows: usize, chars: &mut [u8], attrs: &mut [u8]) -> Terminal
        requires { Sound rows (world self chars.old attrs.old) }
        ensures { world result chars.new attrs.new ≡ paged (world self chars.old attrs.old) (display_cleared self.format (page_of (world self chars.old attrs.old))) }
    {
        self.cursor = screen::clear_display(chars, attrs, rows, self.cursor, self.format);
        self
    }

    pub fn clear_line(mut self, rows: usize, chars: &mut [u8], attrs: &mut [u8]) -> Terminal
        requires { Sound rows (world self chars.old attrs.old) }
        ensures { world result chars.new attrs.new ≡ paged (world self chars.old attrs.old) (line_cleared self.format (page_of (world self chars.old attrs.old))) }
    {
        self.cursor = screen::clear_line(chars, attrs, rows, self.cursor, self.format);
        self
    }

    pub fn insert_row(mut self, rows: usize, chars: &mut [u8], attrs: &mut [u8]) -> Terminal
        requires { Sound rows (world self chars.old attrs.old) }
        ensures { world result chars.new attrs.new ≡ paged (world self chars.old attrs.old) (row_inserted self.format (page_of (world self chars.old attrs.old))) }
    {
        self.cursor = screen::insert_row(chars, attrs, rows, self.cursor, self.format);
        self
    }

    pub fn delete_row(mut self, rows: usize, chars: &mut [u8], attrs: &mut [u8]) -> Terminal
        requires { Sound rows (world self chars.old attrs.old) }
        ensures { world result chars.new attrs.new ≡ paged (world self chars.old attrs.old) (row_deleted self.format (page_of (world self chars.old attrs.old))) }
    {
        self.cursor = screen::delete_row(chars, attrs, rows, self.cursor, self.format);
        self
    }

    pub fn delete_char(self, rows: usize, chars: &mut [u8], attrs: &[u8]) -> Terminal
        requires { Sound rows (world self chars.old attrs.now) }
        ensures { world result chars.new attrs.now ≡ paged (world self chars.old attrs.now) (char_deleted self.format (page_of (world self chars.old attrs.now))) }
    {
        screen::delete_char(chars, attrs, rows, self.cursor, self.format);
        self
    }

    // A mark set or turned, or an enhancement set, at the cursor.
    #[tactic(auto, unfolding(crate::specs::Acts::stamped))]
    pub fn stamp(self, rows: usize, attrs: &mut [u8], a: Action, v: u8) -> Terminal
        requires sized { (rows ≤ 96) × (length attrs.old ≡ rows * 80) }
        requires in_place { InPlace rows self.cursor }
        ensures { (result ≡ self) × (attrs.new ≡ stamped (number_of a) v self.format attrs.old (cell_of self.cursor)) }
    {
        let k = self.cursor.cell();
        match a {
            Action::Mark1 => screen::set_mark(attrs, self.format, 1, k),
            Action::Mark4 => screen::set_mark(attrs, self.format, 4, k),
            Action::Mark5 => screen::set_mark(attrs, self.format, 5, k),
            Action::Turn2 => screen::turn_mark(attrs, self.format, 2, k),
            Action::Turn3 => screen::turn_mark(attrs, self.format, 3, k),
            Action::Turn1 => screen::turn_mark(attrs, self.format, 1, k),
            _ => screen::enhance(attrs, self.format, v % 16, k),
        }
        self
    }

    // Hard reset: all fresh, memory too; which rows are set is for the caller to say.
    pub fn reset_hard(rows: usize, chars: &mut [u8], attrs: &mut [u8]) -> Terminal
        requires { (rows ≤ 96) × (length chars.old ≡ rows * 80) × (length attrs.old ≡ rows * 80) }
        ensures { world result chars.new attrs.new ≡ fresh_world rows }
    {
        chars.fill(32);
        attrs.fill(0);
        Terminal::fresh_state(rows)
    }

    // What an action does; `v` is the byte below 128.
    #[tactic(auto, unfolding(crate::specs::Acts::acted))]
    pub fn act(self, rows: usize, chars: &mut [u8], attrs: &mut [u8], a: Action, v: u8) -> Terminal
        requires { Sound rows (world self chars.old attrs.old) }
        ensures { world result chars.new attrs.new ≡ acted rows (number_of a) v (world self chars.old attrs.old) }
    {
        match a {
            Action::Text => self.type_text(rows, chars, attrs, v),
            Action::LineFeed => self.feed_line(rows, chars, attrs),
            Action::ClearDisplay => self.clear_display(rows, chars, attrs),
            Action::ClearLine => self.clear_line(rows, chars, attrs),
            Action::InsertRow => self.insert_row(rows, chars, attrs),
            Action::DeleteRow => self.delete_row(rows, chars, attrs),
            Action::DeleteChar => self.delete_char(rows, chars, attrs),
            Action::HardReset => Terminal::reset_hard(rows, chars, attrs),
            _ => self.stamp_or_steer(rows, chars, attrs, a, v),
        }
    }

    // What an action does that is no edit.
    fn stamp_or_steer(
        self,
        rows: usize,
        chars: &[u8],
        attrs: &mut [u8],
        a: Action,
        v: u8,
    ) -> Terminal
        requires { Sound rows (world self chars.now attrs.old) }
        ensures { world result chars.now attrs.new ≡ cond (stamps (number_of a)) (world self chars.now (stamped (number_of a) v self.format attrs.old (cell_of self.cursor))) (stated (world self chars.now attrs.old) (steered rows (number_of a) (world self chars.now attrs.old))) }
    {
        if is_stamp(a) {
            return self.stamp(rows, attrs, a, v);
        }
        self.steer(rows, chars, attrs, a)
    }
}

// The answer of `fresh`: 0 done, 1 a memory buffer has another size; and a fresh state.
#[derive(Clone, Copy)]
pub struct FreshAnswer {
    pub number: u8,
    pub state: Terminal,
}

// A fresh state, and a fresh memory in the lent buffers; `rows` rows.
pub fn fresh_on(rows: usize, chars: &mut [u8], attrs: &mut [u8]) -> FreshAnswer
    requires { rows ≤ 96 }
    ensures { fresh_left result chars.new attrs.new ≡ freshened rows chars.old attrs.old }
{
    if is_sized(rows, chars, attrs) {
        return FreshAnswer {
            number: 0,
            state: Terminal::reset_hard(rows, chars, attrs),
        };
    }
    FreshAnswer {
        number: Refusal::Size.number(),
        state: Terminal::fresh_state(rows),
    }
}

// A fresh state, and a fresh memory of a size in the lent buffers. Refuses buffers of another size with 1, and leaves them.
pub fn fresh<S: Size>(chars: &mut [u8], attrs: &mut [u8]) -> FreshAnswer
    ensures { fresh_left result chars.new attrs.new ≡ freshened S.size chars.old attrs.old }
{
    fresh_on(S::rows(), chars, attrs)
}
