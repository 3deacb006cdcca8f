// Whether cells change: an edit's outcome compared with what stands there, before it writes.
#![tactic(auto)]

ghost use Rattle.std.specs.Prelude.{◌≡◌, cond, ◌||◌, ℕ, ◌+◌, ◌-◌, ◌*◌, ◌≤◌, ◌<◌, length, get_or, set};
ghost use Rattle.cells.specs.Memory.{patch, filled, changed_where, shifted_right, shifted_left, posted, moved_up, moved_down};
ghost use Rattle.fields.specs.Fields.{marks, stripped, unprotected};
ghost use Rattle.changes.specs.Differing.{differs};
ghost use Rattle.changes.specs.Rows.{row_of};

// Whether filling cells changes one. A loop and not `any`: without an early exit it becomes vector code, four times as fast on equal cells.
fn fill_differs(s: &[u8], from: usize, to: usize, v: u8) -> bool
    requires { (from ≤ to) × (to ≤ length s.now) }
    ensures { result ≡ differs s.now (filled s.now from to v) }
{
    let mut seen = false;
    for b in &s[from..to] {
        if *b != v {
            seen = true;
        }
    }
    seen
}

// Whether the `n` cells from `a` on differ from those from `b` on. A loop and not `!=` of two parts: without an early exit it becomes vector code.
fn copy_differs(s: &[u8], a: usize, b: usize, n: usize) -> bool
    requires { (a + n ≤ length s.now) × (b + n ≤ length s.now) }
    ensures { result ≡ differs s.now (patch s.now a (a + n) (λ k. get_or s.now (b + (k - a)) 0)) }
{
    let mut seen = false;
    for i in 0..n {
        if s[a + i] != s[b + i] {
            seen = true;
        }
    }
    seen
}

// Whether a shift right changes a cell.
pub fn shift_right_differs(s: &[u8], from: usize, to: usize, v: u8) -> bool
    requires { (from < to) × (to ≤ length s.now) }
    ensures { result ≡ differs s.now (shifted_right s.now from to v) }
{
    s[from] != v || s[from + 1..to] != s[from..to - 1]
}

// Whether a shift left changes a cell.
pub fn shift_left_differs(s: &[u8], from: usize, to: usize, v: u8) -> bool
    requires { (from < to) × (to ≤ length s.now) }
    ensures { result ≡ differs s.now (shifted_left s.now from to v) }
{
    s[to - 1] != v || s[from..to - 1] != s[from + 1..to]
}

// Whether a post changes a cell. The text's cells one by one, left at the first that differs: a `!=` of two parts is a call.
pub fn post_differs(s: &[u8], from: usize, to: usize, text: &[u8]) -> bool
    requires { (from ≤ to) × (to ≤ length s.now) × (length text.now ≤ to - from) }
    ensures { result ≡ differs s.now (posted s.now from to text.now) }
{
    for i in 0..text.len() {
        if s[from + i] != text[i] {
            return true;
        }
    }
    fill_differs(s, from + text.len(), to, 32)
}

// Whether a cell changes where all become blank with attribute 0.
pub fn line_differs(chars: &[u8], attrs: &[u8], from: usize, to: usize) -> bool
    requires { (from ≤ to) × (to ≤ length chars.now) × (to ≤ length attrs.now) }
    ensures { result ≡ differs chars.now (filled chars.now from to 32) || differs attrs.now (filled attrs.now from to 0) }
{
    fill_differs(chars, from, to, 32) || fill_differs(attrs, from, to, 0)
}

// Whether a cell loses its enhancement where all do. A loop as in `fill_differs`.
fn strip_differs(s: &[u8], from: usize, to: usize) -> bool
    requires { (from ≤ to) × (to ≤ length s.now) }
    ensures { result ≡ differs s.now (patch s.now from to (λ k. stripped (get_or s.now k 0))) }
{
    let mut seen = false;
    for a in &s[from..to] {
        if 16 <= *a {
            seen = true;
        }
    }
    seen
}

// Whether a cell changes where all become blank without enhancement.
pub fn rest_differs(chars: &[u8], attrs: &[u8], from: usize, to: usize) -> bool
    requires { (from ≤ to) × (to ≤ length chars.now) × (to ≤ length attrs.now) }
    ensures { result ≡ differs chars.now (filled chars.now from to 32) || differs attrs.now (patch attrs.now from to (λ k. stripped (get_or attrs.now k 0))) }
{
    fill_differs(chars, from, to, 32) || strip_differs(attrs, from, to)
}

// Whether a cell changes where the unprotected become blank without enhancement. Cells that are all so already need no look at their fields.
fn open_differs(chars: &[u8], attrs: &[u8], from: usize, to: usize) -> bool
    requires { (from < to) × (to ≤ length chars.now) × (length attrs.now ≡ length chars.now) }
    ensures { result ≡ differs chars.now (patch chars.now from to (λ k. cond (unprotected (marks attrs.now) k) 32 (get_or chars.now k 0))) || differs attrs.now (patch attrs.now from to (λ k. cond (unprotected (marks attrs.now) k) (stripped (get_or attrs.now k 0)) (get_or attrs.now k 0))) }
{
    if !rest_differs(chars, attrs, from, to) {
        return false;
    }
    let mut kind = fields::kind_at(attrs, from);
    for i in from..to {
        kind = fields::kind_after(i, kind, attrs[i] % 16);
        if fields::is_in(3, kind) {
            if chars[i] != 32 {
                return true;
            }
            if attrs[i] / 16 != 0 {
                return true;
            }
        }
    }
    false
}

// ---- one row of several that change

// Row `r`, where a row of `v` enters at row `at` and the rows from there on move down.
fn down_differs(s: &[u8], rows: usize, at: usize, v: u8, r: usize) -> bool
    requires { (length s.now ≡ rows * 80) × (rows ≤ 96) × (at < rows) × (r < rows) }
    ensures { result ≡ differs (row_of r s.now) (row_of r (moved_down s.now (at * 80) v)) }
{
    if r < at {
        return false;
    }
    let first = r * 80;
    if r == at {
        return fill_differs(s, first, first + 80, v);
    }
    copy_differs(s, first, first - 80, 80)
}

// The last row but one, where the rows below row `at` move up and the memory's last character counts as `end`.
fn second_differs(chars: &[u8], rows: usize, end: u8) -> bool
    requires { (length chars.now ≡ rows * 80) × (rows ≤ 96) × (1 < rows) }
    ensures { (at : ℕ) → at + 1 < rows → result ≡ differs (row_of (rows - 2) chars.now) (row_of (rows - 2) (moved_up (set chars.now (rows * 80 - 1) end) (at * 80) 32)) }
{
    let first = (rows - 2) * 80;
    chars[first + 79] != end || copy_differs(chars, first, first + 80, 79)
}

// The same of both memories. The last attribute stays.
pub fn row_second_differs(chars: &[u8], attrs: &[u8], rows: usize, end: u8) -> bool
    requires { (length chars.now ≡ rows * 80) × (length attrs.now ≡ rows * 80) × (rows ≤ 96) × (1 < rows) }
    ensures { (at : ℕ) → at + 1 < rows → result ≡ differs (row_of (rows - 2) chars.now) (row_of (rows - 2) (moved_up (set chars.now (rows * 80 - 1) end) (at * 80) 32)) || differs (row_of (rows - 2) attrs.now) (row_of (rows - 2) (moved_up attrs.now (at * 80) 0)) }
{
    let first = (rows - 2) * 80;
    second_differs(chars, rows, end) || copy_differs(attrs, first, first + 80, 80)
}

// Both memories' row from cell `first` on, where the row below comes there.
pub fn row_copy_differs(chars: &[u8], attrs: &[u8], first: usize) -> bool
    requires { (first + 160 ≤ length chars.now) × (first + 160 ≤ length attrs.now) }
    ensures { result ≡ differs chars.now (patch chars.now first (first + 80) (λ k. get_or chars.now (first + 80 + (k - first)) 0)) || differs attrs.now (patch attrs.now first (first + 80) (λ k. get_or attrs.now (first + 80 + (k - first)) 0)) }
{
    copy_differs(chars, first, first + 80, 80) || copy_differs(attrs, first, first + 80, 80)
}

// Both memories' row `r`, where a blank row enters at row `at` and the rows from there on move down.
pub fn row_down_differs(chars: &[u8], attrs: &[u8], rows: usize, at: usize, r: usize) -> bool
    requires { (length chars.now ≡ rows * 80) × (length attrs.now ≡ rows * 80) × (rows ≤ 96) × (at < rows) × (r < rows) }
    ensures { result ≡ differs (row_of r chars.now) (row_of r (moved_down chars.now (at * 80) 32)) || differs (row_of r attrs.now) (row_of r (moved_down attrs.now (at * 80) 0)) }
{
    down_differs(chars, rows, at, 32, r) || down_differs(attrs, rows, at, 0, r)
}

// Both memories' row `r`, where all cells from cell `k` on become blank with attribute 0.
pub fn row_clear_differs(chars: &[u8], attrs: &[u8], rows: usize, k: usize, r: usize) -> bool
    requires { (length chars.now ≡ rows * 80) × (length attrs.now ≡ rows * 80) × (rows ≤ 96) × (r < rows) }
    ensures { result ≡ differs (row_of r chars.now) (row_of r (filled chars.now k (rows * 80) 32)) || differs (row_of r attrs.now) (row_of r (filled attrs.now k (rows * 80) 0)) }
{
    let first = r * 80;
    if k <= first {
        return line_differs(chars, attrs, first, first + 80);
    }
    if first + 80 <= k {
        return false;
    }
    line_differs(chars, attrs, k, first + 80)
}

// Both memories' row `r`, where the unprotected cells from cell `k` on become blank without enhancement.
pub fn row_wipe_differs(chars: &[u8], attrs: &[u8], rows: usize, k: usize, r: usize) -> bool
    requires { (length chars.now ≡ rows * 80) × (length attrs.now ≡ rows * 80) × (rows ≤ 96) × (r < rows) }
    ensures { result ≡ differs (row_of r chars.now) (row_of r (changed_where chars.now k (unprotected (marks attrs.now)) (λ v. 32))) || differs (row_of r attrs.now) (row_of r (changed_where attrs.now k (unprotected (marks attrs.now)) stripped)) }
{
    let first = r * 80;
    if k <= first {
        return open_differs(chars, attrs, first, first + 80);
    }
    if first + 80 <= k {
        return false;
    }
    open_differs(chars, attrs, k, first + 80)
}
