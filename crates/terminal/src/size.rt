// The sizes that a terminal's memory has: a type for each, which a call names.
ghost use Rattle.std.specs.Prelude.{◌≡◌, ◌≤◌, ℕ};
ghost use Rattle.std.proofs.Common.{rules};

// How many rows of 80 cells a memory has, 24 to 96.
pub trait Size {
    ghost size: { ℕ };

    fn rows() -> usize
        ensures { result ≡ size };

    ghost in_range: { (24 ≤ size) × (size ≤ 96) };
}

// A memory of 96 rows.
pub struct Rows96;

impl Size for Rows96 {
    ghost size = { 96 };

    ghost in_range = { Prim.search rules };

    fn rows() -> usize
        ensures { result ≡ 96 }
    {
        96
    }
}

// A memory of 48 rows.
pub struct Rows48;

impl Size for Rows48 {
    ghost size = { 48 };

    ghost in_range = { Prim.search rules };

    fn rows() -> usize
        ensures { result ≡ 48 }
    {
        48
    }
}
