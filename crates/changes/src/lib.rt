// A set of rows, one bit a row, row 0 the lowest: rows 0 to 63 in the first word, 64 to 95 in the second. `set_of l` is the set whose rows are the list `l`; every good set is one (proofs/Sets).
#![tactic(auto)]

ghost use Rattle.std.specs.Prelude.{◌≡◌, Bool, true, false, List, ◌∷◌, ℕ, ◌<◌, ◌≤◌, length, get_or, replicate};
ghost use Rattle.changes.specs.Sets.{set_of, rows_of, no_spare, either, count_true, first_true};
ghost use Rattle.changes.specs.Rows.{only};

#[derive(Clone, Copy, Default, PartialEq, Eq)]
pub struct Changes {
    pub low: u64,
    pub high: u64,
}

// How many rows are set, and the first of them, or the number of rows.
#[derive(Clone, Copy)]
pub struct Report {
    pub count: u32,
    pub first: u32,
}

impl Changes {
    // No row.
    pub fn none() -> Changes
        ensures { (n : ℕ) → result ≡ set_of (replicate n false) }
    {
        Changes::default()
    }

    // Every row.
    pub fn all(rows: usize) -> Changes
        requires { rows ≤ 96 }
        ensures { result ≡ set_of (replicate rows true) }
    {
        if rows < 64 {
            return Changes {
                low: (1u64 << rows) - 1,
                high: 0,
            };
        }
        Changes {
            low: u64::MAX,
            high: (1u64 << rows - 64) - 1,
        }
    }

    // One row, or none.
    pub fn one(row: usize, on: bool) -> Changes
        requires { row < 96 }
        ensures { (n : ℕ) → row < n → result ≡ set_of (only n row on) }
    {
        if row < 64 {
            return Changes {
                low: (on as u64) << row,
                high: 0,
            };
        }
        Changes {
            low: 0,
            high: (on as u64) << row - 64,
        }
    }

    // Whether every row is set, and no other.
    pub fn is_all(self, rows: usize) -> bool
        requires { rows ≤ 96 }
        ensures { (result ≡ true → self ≡ set_of (replicate rows true)) × (self ≡ set_of (replicate rows true) → result ≡ true) }
    {
        self == Changes::all(rows)
    }

    // Whether no bit beyond the rows is set.
    pub fn is_good(self, rows: usize) -> bool
        requires { rows ≤ 96 }
        ensures { result ≡ no_spare rows self }
    {
        if rows < 64 {
            return self.high == 0 && self.low < 1u64 << rows;
        }
        self.high < 1u64 << rows - 64
    }

    // Whether a row is set.
    pub fn has(self, row: usize) -> bool
        requires { row < 96 }
        ensures { (n : ℕ) → row < n → result ≡ get_or (rows_of n self) row false }
    {
        if row < 64 {
            return (self.low >> row) % 2 == 1;
        }
        (self.high >> row - 64) % 2 == 1
    }

    // The rows of both. With no row every set stays as it is, also one that is not good.
    pub fn join(self, other: Changes) -> Changes
        ensures { ((l m : List Bool) → self ≡ set_of l → other ≡ set_of m → result ≡ set_of (either l m)) × ((n : ℕ) → other ≡ set_of (replicate n false) → result ≡ self) }
    {
        Changes {
            low: self.low | other.low,
            high: self.high | other.high,
        }
    }

    // A row more in front: it is row 0, and each other row's number is one more.
    pub fn behind(self, on: bool) -> Changes
        ensures { (l : List Bool) → length l < 96 → self ≡ set_of l → result ≡ set_of (on ∷ l) }
    {
        Changes {
            low: (self.low << 1) + on as u64,
            high: (self.high << 1) + (self.low >> 63),
        }
    }

    // How many rows are set, and the first of them.
    pub fn report(self, rows: usize) -> Report
        requires { (rows ≤ 96) × (no_spare rows self ≡ true) }
        ensures { result ≡ record { count = count_true (rows_of rows self); first = first_true (rows_of rows self) } }
    {
        let count = self.low.count_ones() + self.high.count_ones();
        let first = if self.low != 0 {
            self.low.trailing_zeros()
        } else if self.high != 0 {
            64 + self.high.trailing_zeros()
        } else {
            rows as u32
        };
        Report { count, first }
    }
}
