// Clearing with format on: a cleared cell becomes blank and keeps its mark, with enhancement 0.
#![tactic(auto)]

ghost use Rattle.std.specs.Prelude.{◌≡◌, ◌+◌, ◌*◌, ◌/◌, ◌≤◌, ◌<◌, ltb, length, set, get_or};
ghost use Rattle.cells.specs.Memory.{changed_where};
ghost use Rattle.fields.specs.Fields.{marks, unprotected, field_end, stripped};

// One cell.
fn clear_cell(chars: &mut [u8], attrs: &mut [u8], cell: usize)
    requires { (cell < length chars.old) × (cell < length attrs.old) }
    ensures { (chars.new ≡ set chars.old cell 32) × (attrs.new ≡ set attrs.old cell (stripped (get_or attrs.old cell 0))) }
{
    chars[cell] = 32;
    attrs[cell] %= 16;
}

// The unprotected cells from `from` on, in one walk.
pub fn clear_unprotected(chars: &mut [u8], attrs: &mut [u8], from: usize)
    requires { (from < length chars.old) × (length attrs.old ≡ length chars.old) }
    ensures { (chars.new ≡ changed_where chars.old from (unprotected (marks attrs.old)) (λ v. 32)) × (attrs.new ≡ changed_where attrs.old from (unprotected (marks attrs.old)) stripped) }
{
    let mut kind = fields::kind_at(attrs, from);
    for i in from..chars.len() {
        kind = fields::kind_after(i, kind, attrs[i] % 16);
        if fields::is_in(3, kind) {
            clear_cell(chars, attrs, i);
        }
    }
}

// The cells from `cell` on to its field's end.
pub fn clear_rest(chars: &mut [u8], attrs: &mut [u8], cell: usize)
    requires { (cell / 80 * 80 + 80 ≤ length chars.old) × (length attrs.old ≡ length chars.old) }
    ensures { (chars.new ≡ changed_where chars.old cell (λ k. ltb k (field_end (marks attrs.old) cell)) (λ v. 32)) × (attrs.new ≡ changed_where attrs.old cell (λ k. ltb k (field_end (marks attrs.old) cell)) stripped) }
{
    let end = fields::field_end(attrs, cell);
    for i in cell..end {
        clear_cell(chars, attrs, i);
    }
}
