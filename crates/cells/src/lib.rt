// Byte memories: ranges, and the loops that write. Each cell is written at most once in one operation.
#![tactic(auto)]

ghost use Rattle.std.specs.Prelude.{◌≡◌, ◌+◌, ◌-◌, ◌≤◌, ◌<◌, ◌++◌, length, replicate};
ghost use Rattle.cells.specs.Range.{within};
ghost use Rattle.cells.specs.Memory.{filled, shifted_right, shifted_left, moved_up, moved_down, written, posted};

// Whether a byte is `lo` to `hi`.
pub fn is_within(lo: u8, hi: u8, v: u8) -> bool
    ensures { result ≡ within lo hi v }
{
    (lo..=hi).contains(&v)
}

// Cells `from` to `to - 1` become `v`.
pub fn fill(s: &mut [u8], from: usize, to: usize, v: u8)
    requires { (from ≤ to) × (to ≤ length s.old) }
    ensures { s.new ≡ filled s.old from to v }
{
    s[from..to].fill(v);
}

// `v` enters at `from`, the cells up to `to` move right by one, the last is lost.
pub fn shift_right(s: &mut [u8], from: usize, to: usize, v: u8)
    requires { (from < to) × (to ≤ length s.old) }
    ensures { s.new ≡ shifted_right s.old from to v }
{
    s.copy_within(from..to - 1, from + 1);
    s[from] = v;
}

// The cells after `from` up to `to` move left by one, the one at `from` is lost, `v` enters at `to - 1`.
pub fn shift_left(s: &mut [u8], from: usize, to: usize, v: u8)
    requires { (from < to) × (to ≤ length s.old) }
    ensures { s.new ≡ shifted_left s.old from to v }
{
    s.copy_within(from + 1..to, from);
    s[to - 1] = v;
}

// The row that begins at cell `from` goes, the rows below it move up, the last becomes `v`.
pub fn move_up(s: &mut [u8], from: usize, v: u8)
    requires { from + 80 ≤ length s.old }
    ensures { s.new ≡ moved_up s.old from v }
{
    let last = s.len() - 80;
    s.copy_within(from + 80.., from);
    s[last..].fill(v);
}

// A row of `v` enters at cell `from`, the rows from there on move down, the last is lost.
pub fn move_down(s: &mut [u8], from: usize, v: u8)
    requires { from + 80 ≤ length s.old }
    ensures { s.new ≡ moved_down s.old from v }
{
    let last = s.len() - 80;
    s.copy_within(from..last, from + 80);
    s[from..from + 80].fill(v);
}

// The text, then blanks to the part's end.
pub fn write_text(part: &mut [u8], text: &[u8])
    requires { length text.now ≤ length part.old }
    ensures { part.new ≡ text.now ++ replicate (length part.old - length text.now) 32 }
{
    let n = text.len();
    part[..n].copy_from_slice(text);
    part[n..].fill(32);
}

// The text, then blanks, in the cells `from` to `to - 1`: that part of the memory is lent on.
pub fn post_at(s: &mut [u8], from: usize, to: usize, text: &[u8])
    requires { (from ≤ to) × (to ≤ length s.old) × (length text.now ≤ to - from) }
    ensures { s.new ≡ posted s.old from to text.now }
{
    write_text(&mut s[from..to], text);
}

// The bytes, from cell `at` on.
pub fn write_at(s: &mut [u8], at: usize, bytes: &[u8])
    requires { at + length bytes.now ≤ length s.old }
    ensures { s.new ≡ written s.old at bytes.now }
{
    let end = at + bytes.len();
    write_text(&mut s[at..end], bytes);
}
