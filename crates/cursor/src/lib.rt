// The cursor and the window's top, by value. `rows` is the number of rows of the memory, 24 to 96.
#![tactic(auto)]

ghost use Rattle.std.specs.Prelude.{◌≡◌, cond, ltb, ◌+◌, ◌-◌, ◌*◌, ◌/◌, ◌%◌, ◌≤◌, ◌<◌, min};
ghost use Rattle.cells.specs.Search.{first_in, last_in};
ghost use Rattle.cursor.specs.Cursor.{top_for, gone, cell_of, at_cell, gone_up, gone_down, gone_left, gone_right, in_column, home_at, risen, fallen, is_placed, InPlace};
ghost use Rattle.cursor.specs.Addressing.{signed, aimed, held_to, to_column, to_row, to_window_row};
ghost use Rattle.cursor.specs.Stops.{is_stop, tabbed, back_tabbed};

#[derive(Clone, Copy)]
pub struct Cursor {
    pub row: usize,
    pub col: usize,
    pub top: usize,
}

impl Cursor {
    // At a place, shown in the window.
    pub fn go(self, row: usize, col: usize) -> Cursor
        ensures { result ≡ gone self row col }
    {
        Cursor {
            row: row,
            col: col,
            top: top_for(row, self.top),
        }
    }

    // The number of the cursor's cell.
    pub fn cell(self) -> usize
        requires { (self.row < 96) × (self.col < 80) }
        ensures { result ≡ cell_of self }
    {
        self.row * 80 + self.col
    }

    // At a cell, shown in the window.
    pub fn go_to(self, cell: usize) -> Cursor
        ensures { result ≡ at_cell self cell }
    {
        self.go(cell / 80, cell % 80)
    }

    pub fn go_up(self) -> Cursor
        ensures { result ≡ gone_up self }
    {
        self.go(self.row.saturating_sub(1), self.col)
    }

    pub fn go_down(self, rows: usize) -> Cursor
        requires { (24 ≤ rows) × (rows ≤ 96) }
        ensures { result ≡ gone_down rows self }
    {
        self.go(one_more(self.row, rows), self.col)
    }

    pub fn go_left(self) -> Cursor
        requires { (self.row < 96) × (self.col < 80) }
        ensures { result ≡ gone_left self }
    {
        self.go_to(self.cell().saturating_sub(1))
    }

    pub fn go_right(self, rows: usize) -> Cursor
        requires { (self.row < 96) × (self.col < 80) × (24 ≤ rows) × (rows ≤ 96) }
        ensures { result ≡ gone_right rows self }
    {
        self.go_to(one_more(self.cell(), rows * 80))
    }

    // In a column of its row.
    pub fn go_in(mut self, col: usize) -> Cursor
        ensures { result ≡ in_column col self }
    {
        self.col = col;
        self
    }

    // Home: the window at the top, the cursor at a cell.
    pub fn home_to(cell: usize) -> Cursor
        ensures { result ≡ home_at cell }
    {
        Cursor {
            row: 0,
            col: 0,
            top: 0,
        }
        .go_to(cell)
    }

    // The top and the row rise by `k` or by what remains: roll up by 1, next page by 24.
    pub fn rise(mut self, rows: usize, k: usize) -> Cursor
        requires limit { rows ≤ 96 }
        requires place { InPlace rows self }
        ensures { result ≡ risen rows k self }
    {
        let d = k.min(rows - 24 - self.top);
        self.row = self.row + d;
        self.top = self.top + d;
        self
    }

    // The top and the row fall by `k` or by what remains: roll down by 1, previous page by 24.
    pub fn fall(mut self, k: usize) -> Cursor
        requires { self.top ≤ self.row }
        ensures { result ≡ fallen k self }
    {
        let d = k.min(self.top);
        self.row = self.row - d;
        self.top = self.top - d;
        self
    }

    // Whether the cursor is in the memory and in the window, and the window in the memory.
    pub fn is_placed(self, rows: usize) -> bool
        requires { (24 ≤ rows) × (rows ≤ 96) }
        ensures { result ≡ is_placed rows self }
    {
        if 79 < self.col {
            return false;
        }
        if rows - 24 < self.top {
            return false;
        }
        if self.row < self.top {
            return false;
        }
        if self.top + 23 < self.row {
            return false;
        }
        true
    }
}

// Cursor addressing: `sign` is 0 none, 1 plus, 2 minus.
impl Cursor {
    pub fn to_column(self, sign: u8, value: usize) -> Cursor
        requires { (self.col < 80) × (value ≤ 999) }
        ensures { result ≡ to_column sign value self }
    {
        self.go_in(address(sign, self.col, value, 80))
    }

    pub fn to_row(self, rows: usize, sign: u8, value: usize) -> Cursor
        requires { (self.row < rows) × (rows ≤ 96) × (value ≤ 999) }
        ensures { result ≡ to_row rows sign value self }
    {
        self.go(address(sign, self.row, value, rows), self.col)
    }

    pub fn to_window_row(self, rows: usize, sign: u8, value: usize) -> Cursor
        requires limits { (rows ≤ 96) × (value ≤ 999) }
        requires place { InPlace rows self }
        ensures { result ≡ to_window_row rows sign value self }
    {
        if sign == 0 {
            return self.go((self.top + value.min(23)).min(rows - 1), self.col);
        }
        self.to_row(rows, sign, value)
    }
}

// Tab stops.
impl Cursor {
    pub fn tab(self, rows: usize, stops: [bool; 80]) -> Cursor
        requires { (self.row < rows) × (rows ≤ 96) × (self.col < 80) }
        ensures { result ≡ tabbed rows stops self }
    {
        let found = next_stop(stops, self.col + 1);
        match found {
            Some(col) => self.go_in(col),
            None => self.next_row(rows),
        }
    }

    // Column 0 of the next row, where there is one.
    fn next_row(self, rows: usize) -> Cursor
        requires { self.row < 96 }
        ensures { result ≡ cond (ltb (self.row + 1) rows) (gone self (self.row + 1) 0) self }
    {
        if self.row + 1 < rows {
            return self.go(self.row + 1, 0);
        }
        self
    }

    pub fn back_tab(self, stops: [bool; 80]) -> Cursor
        requires { self.col < 80 }
        ensures { result ≡ back_tabbed stops self }
    {
        self.go_in(last_stop(stops, self.col).unwrap_or(0))
    }
}

fn next_stop(stops: [bool; 80], from: usize) -> Option<usize>
    requires { from ≤ 80 }
    ensures { result ≡ first_in is_stop stops from 80 }
{
    let at = stops[from..80].iter().position(|stop| *stop);
    at.map(|k| from + k)
}

fn last_stop(stops: [bool; 80], to: usize) -> Option<usize>
    requires { to ≤ 80 }
    ensures { result ≡ last_in is_stop stops 0 to }
{
    stops[..to].iter().rposition(|stop| *stop)
}

// The top nearest to `top` that shows the row.
fn top_for(row: usize, top: usize) -> usize
    ensures { result ≡ top_for row top }
{
    top.max(row.saturating_sub(23)).min(row)
}

// One more, held below `end`. By a test, since the largest number has no next.
fn one_more(n: usize, end: usize) -> usize
    requires { 0 < end }
    ensures { result ≡ min (n + 1) (end - 1) }
{
    if n < end - 1 { n + 1 } else { end - 1 }
}

// The number as a place, or as a move from `at`, held below `end`.
fn address(sign: u8, at: usize, value: usize, end: usize) -> usize
    requires { (at < 96) × (value ≤ 999) × (0 < end) × (end ≤ 96) }
    ensures { result ≡ held_to end (aimed sign at value) }
{
    if sign == 0 {
        return hold(value as i64, end);
    }
    hold(at as i64 + give_sign(sign, value), end)
}

// The number with its sign, a move of minus 999 to 999.
fn give_sign(sign: u8, value: usize) -> i64
    requires { value ≤ 999 }
    ensures { result ≡ signed sign value }
{
    let v = value as i64;
    if sign == 1 { v } else { -v }
}

// Held to 0 to `end - 1`.
fn hold(x: i64, end: usize) -> usize
    requires { (0 < end) × (end ≤ 96) }
    ensures { result ≡ held_to end x }
{
    if x < 0 {
        return 0;
    }
    (x as usize).min(end - 1)
}
