// The byte reader as plain decisions, in document 01's order and words ('Reading host bytes'): what a byte asks for, and the reading state and the number after it.
// There is no table.
#![tactic(auto)]

ghost use Rattle.std.specs.Prelude.{◌≡◌, ◌≤◌};
ghost use Rattle.reading.specs.Action.{number_of};
ghost use Rattle.decisions.specs.Decisions.{step, step_of, goes_to, in_plain, after_esc, after_group, signed, digited, in_cursor, in_enhance, in_other, decided};

use reading::{Action, Number};

// What a byte comes to: the action that it asks for, one of those that `reading` names, and the reading state, a number as in the terminal's state, and the number after it.
#[derive(Clone, Copy)]
pub struct Step {
    pub action: Action,
    pub reading: u8,
    pub number: Number,
}

// An action, and on to a reading state with the number cleared. Each end of a sequence goes to state 0.
fn go_to(action: Action, state: u8) -> Step
    ensures { step_of result ≡ goes_to (number_of action) state }
{
    Step {
        action,
        reading: state,
        number: Number::default(),
    }
}

// What a byte comes to in a reading state, with the number that has come so far. A byte counts modulo 128. ESC (27) in any state clears the number and goes to 1; this
// comes before every rule below.
#[tactic(auto, unfolding(crate::specs::Decisions::decided))]
pub fn read(state: u8, n: Number, byte: u8) -> Step
    requires { n.value ≤ 999 }
    ensures { step_of result ≡ decided state n byte }
{
    let b = byte % 128;
    if b == 27 {
        return go_to(Action::Esc, 1);
    }
    match state {
        0 => read_plain(b),
        1 => read_after_esc(b),
        2 => read_after_group(b),
        3 => read_in_cursor(n, b),
        4 => read_in_enhance(b),
        5 => read_in_other(b),
        _ => go_to(Action::Rest, 0), // 6, after ESC ): it ends after one byte
    }
}

// State 0, plain. Others do nothing.
fn read_plain(b: u8) -> Step
    ensures { step_of result ≡ in_plain b }
{
    match b {
        5 => go_to(Action::Ack, 0),
        8 => go_to(Action::Left, 0),
        9 => go_to(Action::Tab, 0),
        10 => go_to(Action::LineFeed, 0),
        13 => go_to(Action::Column0, 0),
        17 => go_to(Action::Trigger, 0),
        32..=126 => go_to(Action::Text, 0),
        _ => go_to(Action::Rest, 0),
    }
}

// State 1, after ESC. `&` and `)` go on; any other byte ends the sequence.
fn read_after_esc(b: u8) -> Step
    ensures { step_of result ≡ after_esc b }
{
    match b {
        b'A' => go_to(Action::Up, 0),
        b'B' => go_to(Action::Down, 0),
        b'C' => go_to(Action::Right, 0),
        b'D' => go_to(Action::Left, 0),
        b'G' => go_to(Action::Column0, 0),
        b'H' => go_to(Action::Home, 0),
        b'h' => go_to(Action::HomeAll, 0),
        b'F' => go_to(Action::HomeDown, 0),
        b'I' => go_to(Action::Tab, 0),
        b'i' => go_to(Action::BackTab, 0),
        b'J' => go_to(Action::ClearDisplay, 0),
        b'K' => go_to(Action::ClearLine, 0),
        b'L' => go_to(Action::InsertRow, 0),
        b'M' => go_to(Action::DeleteRow, 0),
        b'P' => go_to(Action::DeleteChar, 0),
        b'Q' => go_to(Action::InsertOn, 0),
        b'R' => go_to(Action::InsertOff, 0),
        b'S' => go_to(Action::RollUp, 0),
        b'T' => go_to(Action::RollDown, 0),
        b'U' => go_to(Action::NextPage, 0),
        b'V' => go_to(Action::PrevPage, 0),
        b'W' => go_to(Action::FormatOn, 0),
        b'X' => go_to(Action::FormatOff, 0),
        b'1' => go_to(Action::SetTab, 0),
        b'2' => go_to(Action::ClearTab, 0),
        b'3' => go_to(Action::ClearTabs, 0),
        b'[' => go_to(Action::Mark1, 0),
        b'{' => go_to(Action::Mark4, 0),
        b']' => go_to(Action::Mark5, 0),
        b'6' => go_to(Action::Turn2, 0),
        b'7' => go_to(Action::Turn3, 0),
        b'8' => go_to(Action::Turn1, 0),
        b'a' => go_to(Action::AskAbsolute, 0),
        b'`' => go_to(Action::AskWindow, 0),
        b'^' => go_to(Action::AskStatus, 0),
        b'd' => go_to(Action::AskBlock, 0),
        b'b' => go_to(Action::LockOff, 0),
        b'c' => go_to(Action::LockOn, 0),
        b'g' => go_to(Action::SoftReset, 0),
        b'E' => go_to(Action::HardReset, 0),
        b'&' => go_to(Action::ToGroup, 2),
        b')' => go_to(Action::ToSet, 6),
        _ => go_to(Action::Rest, 0),
    }
}

// State 2, after ESC &: `a` to 3, `d` to 4, another lowercase letter to 5, else it ends.
fn read_after_group(b: u8) -> Step
    ensures { step_of result ≡ after_group b }
{
    match b {
        b'a' => go_to(Action::ToCursor, 3),
        b'd' => go_to(Action::ToEnhance, 4),
        b'a'..=b'z' => go_to(Action::ToOther, 5),
        _ => go_to(Action::Rest, 0),
    }
}

// State 3, in ESC & a: an optional sign first, digits (above 999 counts as 999), then a letter. A small letter acts and begins the next number, a capital acts and
// ends; anything else ends.
fn read_in_cursor(n: Number, b: u8) -> Step
    requires { n.value ≤ 999 }
    ensures { step_of result ≡ in_cursor n b }
{
    match b {
        b'+' => read_sign(n, Action::Plus, 1),
        b'-' => read_sign(n, Action::Minus, 2),
        b'0'..=b'9' => read_digit(n, b),
        b'c' => go_to(Action::ColumnOn, 3),
        b'C' => go_to(Action::ColumnEnd, 0),
        b'r' => go_to(Action::RowOn, 3),
        b'R' => go_to(Action::RowEnd, 0),
        b'y' => go_to(Action::WindowOn, 3),
        b'Y' => go_to(Action::WindowEnd, 0),
        _ => go_to(Action::Rest, 0),
    }
}

// A sign: first, or else it ends the sequence.
fn read_sign(n: Number, action: Action, sign: u8) -> Step
    ensures { step_of result ≡ signed n (number_of action) sign }
{
    if n.is_unbegun() {
        return count_on(
            action,
            Number {
                sign,
                ..Number::default()
            },
        );
    }
    go_to(Action::Rest, 0)
}

// A digit: the value with it; above 999 counts as 999.
fn read_digit(n: Number, b: u8) -> Step
    requires { (48 ≤ b) × (b ≤ 57) × (n.value ≤ 999) }
    ensures { step_of result ≡ digited n b }
{
    let value = (n.value * 10 + (b - 48) as usize).min(999);
    count_on(
        Action::Digit,
        Number {
            sign: n.sign,
            digit: true,
            value,
        },
    )
}

// A byte of the number in ESC & a: it stays in state 3 with what has come of the number.
fn count_on(action: Action, number: Number) -> Step
    ensures { step_of result ≡ step (number_of action) 3 number }
{
    Step {
        action,
        reading: 3,
        number,
    }
}

// State 4, in ESC & d: 64 to 79 sets the cursor cell's enhancement; all bytes end it.
fn read_in_enhance(b: u8) -> Step
    ensures { step_of result ≡ in_enhance b }
{
    match b {
        64..=79 => go_to(Action::Enhance, 0),
        _ => go_to(Action::Rest, 0),
    }
}

// State 5, in another ESC & group: it ends at 64 to 90 or any byte below 32.
fn read_in_other(b: u8) -> Step
    ensures { step_of result ≡ in_other b }
{
    match b {
        64..=90 => go_to(Action::Rest, 0),
        0..=31 => go_to(Action::Rest, 0),
        _ => go_to(Action::Stay, 5),
    }
}
