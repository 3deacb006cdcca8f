// The calls of two readers that share a form: a reader's post, and its reading back of a field. Under an owner table each reader writes and reads the fields that it owns, and no others.
#![tactic(auto)]

ghost use Rattle.std.specs.Prelude.{◌≡◌, ◌||◌, ◌+◌, ◌*◌, ◌/◌, ◌≤◌, length, eqb};
ghost use Rattle.fields.specs.Fields.{marks};
ghost use Rattle.replies.specs.Replies.{field_text};
ghost use Rattle.terminal.specs.State.{world};
ghost use Rattle.terminal.specs.Numbers.{answered};
ghost use Rattle.post.specs.Posts.{post_left};
ghost use Rattle.readers.specs.Owners.{is_table, owns, posted_as, read_left, read_back_of};
ghost use Rattle.readers.specs.Field.{early_refusal, read_in, written_left};

use post::PostAnswer;
use terminal::{Refusal, Size, Terminal};

// The number, and how many bytes of the text are written. A number stays a byte, as document 01 gives it.
#[derive(Clone, Copy)]
pub struct ReadAnswer {
    pub number: u8,
    pub written: usize,
}

// Whether an owner table has 256 bytes.
fn is_table(owners: &[u8]) -> bool
    ensures { result ≡ is_table owners.now }
{
    owners.len() == 256
}

// Whether there is a reader of that number.
fn is_reader(reader: u8) -> bool
    ensures { result ≡ (eqb reader 1 || eqb reader 2) }
{
    reader == 1 || reader == 2
}

// Whether a reader owns a field.
#[tactic(auto, unfolding(crate::specs::Owners::owns))]
fn owns_field(owners: &[u8], reader: u8, field: usize) -> bool
    requires { length owners.now ≡ 256 }
    ensures { result ≡ owns owners.now reader field }
{
    is_reader(reader) && field < 256 && owners[field] == reader
}

// A reader's post, in a memory of `rows` rows.
pub fn post_as_on(
    t: Terminal,
    rows: usize,
    chars: &mut [u8],
    attrs: &[u8],
    owners: &[u8],
    reader: u8,
    field: usize,
    text: &[u8],
) -> PostAnswer
    requires { (24 ≤ rows) × (rows ≤ 96) }
    ensures { post_left result chars.new attrs.now ≡ posted_as rows (world t chars.old attrs.now) owners.now reader field text.now }
{
    if !is_table(owners) {
        return PostAnswer {
            number: Refusal::Size.number(),
            state: t,
        };
    }
    let owned = owns_field(owners, reader, field);
    post::post_if(t, rows, chars, attrs, owned, field, text)
}

// A reader's post, in a memory of a size: as `post`, and 13 unless the reader is 1 or 2 and owns the field. Takes any state, any buffers, any owner table, any reader and field
// number and any text; a refusal changes nothing.
pub fn post_as<S: Size>(
    t: Terminal,
    chars: &mut [u8],
    attrs: &[u8],
    owners: &[u8],
    reader: u8,
    field: usize,
    text: &[u8],
) -> PostAnswer
    ensures { post_left result chars.new attrs.now ≡ posted_as S.size (world t chars.old attrs.now) owners.now reader field text.now }
{
    post_as_on(t, S::rows(), chars, attrs, owners, reader, field, text)
}

// Whether the state lets a field be read back: with format on. Host lock and a pending transfer do not bar it.
fn is_readable(t: Terminal) -> bool
    ensures { result ≡ t.format }
{
    t.format
}

// Refuses a reading back by the tests that do not look at the field.
fn refuse_early(
    t: Terminal,
    rows: usize,
    chars: &[u8],
    attrs: &[u8],
    owners: &[u8],
) -> Result<(), Refusal>
    requires { (24 ≤ rows) × (rows ≤ 96) }
    ensures { answered result ≡ early_refusal rows (world t chars.now attrs.now) owners.now }
{
    if !is_table(owners) {
        return Err(Refusal::Size);
    }
    t.check(rows, chars, attrs)?;
    if !is_readable(t) {
        return Err(Refusal::Format);
    }
    Ok(())
}

// The cells of the field that starts at cell `k`, blanks too: a part of the memory, not copied.
fn field_part<'a>(chars: &'a [u8], attrs: &[u8], k: usize) -> &'a [u8]
    requires { (k / 80 * 80 + 80 ≤ length attrs.now) × (length chars.now ≡ length attrs.now) }
    ensures { result.now ≡ field_text chars.now (marks attrs.now) k }
{
    let end = fields::field_end(attrs, k);
    &chars[k..end]
}

// The field that starts at cell `k`, from the first byte of `out` on, for one who owns it or does not: how many bytes, or why it is refused.
fn read_field(
    chars: &[u8],
    attrs: &[u8],
    owned: bool,
    k: usize,
    out: &mut [u8],
) -> Result<usize, Refusal>
    requires { (k / 80 * 80 + 80 ≤ length attrs.now) × (length chars.now ≡ length attrs.now) }
    ensures { written_left result out.new ≡ read_in (field_text chars.now (marks attrs.now) k) owned (Some k) out.old }
{
    if !owned {
        return Err(Refusal::Owner);
    }
    let text = field_part(chars, attrs, k);
    if out.len() < text.len() {
        return Err(Refusal::Room);
    }
    cells::write_at(out, 0, text);
    Ok(text.len())
}

// A reader's reading back: how many bytes, or why it is refused.
fn read_text(
    t: Terminal,
    rows: usize,
    chars: &[u8],
    attrs: &[u8],
    owners: &[u8],
    reader: u8,
    field: usize,
    out: &mut [u8],
) -> Result<usize, Refusal>
    requires { (24 ≤ rows) × (rows ≤ 96) }
    ensures { written_left result out.new ≡ read_back_of rows (world t chars.now attrs.now) owners.now reader field out.old }
{
    refuse_early(t, rows, chars, attrs, owners)?;
    let owned = owns_field(owners, reader, field);
    match fields::nth_field(attrs, field) {
        Some(k) => read_field(chars, attrs, owned, k, out),
        None => Err(Refusal::Field),
    }
}

// A reader's reading back, in a memory of `rows` rows.
pub fn read_back_on(
    t: Terminal,
    rows: usize,
    chars: &[u8],
    attrs: &[u8],
    owners: &[u8],
    reader: u8,
    field: usize,
    out: &mut [u8],
) -> ReadAnswer
    requires { (24 ≤ rows) × (rows ≤ 96) }
    ensures { read_left result out.new ≡ read_back_of rows (world t chars.now attrs.now) owners.now reader field out.old }
{
    match read_text(t, rows, chars, attrs, owners, reader, field, out) {
        Ok(written) => ReadAnswer { number: 0, written },
        Err(refusal) => ReadAnswer {
            number: refusal.number(),
            written: 0,
        },
    }
}

// What stands in a field that the reader owns, in a memory of a size: the field whole, blanks too, from the first byte of `out` on, and the room beyond it unchanged. It changes
// neither state nor memory, and may be asked for while host lock is on or a transfer is pending. Takes any state, any buffers, any owner table, any reader and field number; a
// refusal writes nothing.
pub fn read_back<S: Size>(
    t: Terminal,
    chars: &[u8],
    attrs: &[u8],
    owners: &[u8],
    reader: u8,
    field: usize,
    out: &mut [u8],
) -> ReadAnswer
    ensures { read_left result out.new ≡ read_back_of S.size (world t chars.now attrs.now) owners.now reader field out.old }
{
    read_back_on(t, S::rows(), chars, attrs, owners, reader, field, out)
}
