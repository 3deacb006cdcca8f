// The call for a post: text into a field, with the cursor left where it is.
#![tactic(auto)]

ghost use Rattle.std.specs.Prelude.{◌≡◌, ◌*◌, ◌≤◌, ◌<◌, IfOk};
ghost use Rattle.std.specs.List.{list_all};
ghost use Rattle.changes.specs.Sets.{set_of};
ghost use Rattle.changes.specs.Differing.{differing_both};
ghost use Rattle.terminal.specs.State.{world, Sound};
ghost use Rattle.post.specs.Posts.{fits, post_left, posted_to};
ghost use Rattle.post.specs.Field.{entry_left, entered_if, posted_in_if, posted_if};

use changes::Changes;
use terminal::{Refusal, Size, Terminal};

// The number, and the state afterwards: the state before with the row that changed. A number stays a byte, as document 01 gives it: the state comes back with a refusal too.
#[derive(Clone, Copy)]
pub struct PostAnswer {
    pub number: u8,
    pub state: Terminal,
}

// Whether a post byte is 32 to 126 and allowed by a field's kind.
#[tactic(auto, unfolding(crate::specs::Posts::fits))]
fn fits_one(kind: u8, b: u8) -> bool
    ensures { result ≡ fits kind b }
{
    cells::is_within(32, 126, b) && fields::allows(kind, b)
}

// Whether each byte of a text fits.
fn fits_all(kind: u8, text: &[u8]) -> bool
    ensures { result ≡ list_all (fits kind) text.now }
{
    text.iter().all(|b| fits_one(kind, *b))
}

// A post into the field that starts at cell `k`, by one who owns it or does not: the row that it changed, if any, or why it is refused. What stands there already is not written again.
fn post_field(
    t: Terminal,
    rows: usize,
    chars: &mut [u8],
    attrs: &[u8],
    owned: bool,
    k: usize,
    text: &[u8],
) -> Result<Changes, Refusal>
    requires sound { Sound rows (world t chars.old attrs.now) }
    requires inside { k < rows * 80 }
    ensures left { entry_left result t chars.new attrs.now ≡ posted_in_if (world t chars.old attrs.now) owned text.now (Some k) }
    ensures changed { IfOk result (λ found. found ≡ set_of (differing_both rows chars.old attrs.now chars.new attrs.now)) }
{
    let end = fields::field_end(attrs, k);
    let long = end - k < text.len();
    if !owned {
        return Err(Refusal::Owner);
    }
    if long {
        return Err(Refusal::Length);
    }
    let kind = fields::kind_at(attrs, k);
    if !fits_all(kind, text) {
        return Err(Refusal::Character);
    }
    if !compare::post_differs(chars, k, end, text) {
        return Ok(Changes::none());
    }
    cells::post_at(chars, k, end, text);
    Ok(Changes::one(k / 80, true))
}

// A post to a field, in a memory of `rows` rows, by one who owns it or does not: the row that it changed, if any, or why it is refused.
fn post_to(
    t: Terminal,
    rows: usize,
    chars: &mut [u8],
    attrs: &[u8],
    owned: bool,
    field: usize,
    text: &[u8],
) -> Result<Changes, Refusal>
    requires { (24 ≤ rows) × (rows ≤ 96) }
    ensures left { entry_left result t chars.new attrs.now ≡ entered_if rows (world t chars.old attrs.now) owned field text.now }
    ensures changed { IfOk result (λ found. found ≡ set_of (differing_both rows chars.old attrs.now chars.new attrs.now)) }
{
    t.check(rows, chars, attrs)?;
    if t.is_barred() {
        return Err(Refusal::Barred);
    }
    if !t.format {
        return Err(Refusal::Format);
    }
    match fields::nth_field(attrs, field) {
        Some(k) => post_field(t, rows, chars, attrs, owned, k, text),
        None => Err(Refusal::Field),
    }
}

// A post, in a memory of `rows` rows, by one who owns the field or does not: who does not is answered 13, where no test of the buffers, the state and the field comes first.
pub fn post_if(
    mut t: Terminal,
    rows: usize,
    chars: &mut [u8],
    attrs: &[u8],
    owned: bool,
    field: usize,
    text: &[u8],
) -> PostAnswer
    requires { (24 ≤ rows) × (rows ≤ 96) }
    ensures { post_left result chars.new attrs.now ≡ posted_if rows (world t chars.old attrs.now) owned field text.now }
{
    let (number, changes) = match post_to(t, rows, chars, attrs, owned, field, text) {
        Ok(changes) => (0, changes),
        Err(refusal) => (refusal.number(), Changes::none()),
    };
    t.changes = t.changes.join(changes);
    PostAnswer { number, state: t }
}

// A post that names no reader, in a memory of `rows` rows.
pub fn post_on(
    t: Terminal,
    rows: usize,
    chars: &mut [u8],
    attrs: &[u8],
    field: usize,
    text: &[u8],
) -> PostAnswer
    requires { (24 ≤ rows) × (rows ≤ 96) }
    ensures { post_left result chars.new attrs.now ≡ posted_to rows (world t chars.old attrs.now) field text.now }
{
    post_if(t, rows, chars, attrs, true, field, text)
}

// A post, in a memory of a size. Takes any state, any buffers, any field number and any text; a refusal changes nothing.
pub fn post<S: Size>(
    t: Terminal,
    chars: &mut [u8],
    attrs: &[u8],
    field: usize,
    text: &[u8],
) -> PostAnswer
    ensures { post_left result chars.new attrs.now ≡ posted_to S.size (world t chars.old attrs.now) field text.now }
{
    post_on(t, S::rows(), chars, attrs, field, text)
}
