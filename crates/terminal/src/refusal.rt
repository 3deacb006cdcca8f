// Why a call is refused, and the number that says so.
ghost use Rattle.std.specs.Prelude.{◌≡◌};
ghost use Rattle.terminal.specs.Numbers.{number_of, answered};

// The reasons, numbered as in document 01's table of 'Keys and posts'; 0 is for a call that is done.
#[derive(Clone, Copy, Debug, PartialEq, Eq)]
pub enum Refusal {
    // A buffer is not of the right size.
    Size = 1,
    // The state is not good.
    State = 2,
    // The key is not listed.
    Key = 3,
    // Host lock is on, or a transfer is pending.
    Barred = 4,
    // No cell takes text.
    Target = 5,
    // The field does not allow the character.
    Character = 6,
    // The reply does not fit.
    Room = 7,
    // Format mode is off.
    Format = 8,
    // There is no such field.
    Field = 9,
    // The text is longer than the field.
    Length = 10,
    // The record has another form.
    Form = 11,
    // The record is a part under its size.
    Part = 12,
    // The reader does not own the field.
    Owner = 13,
}

impl Refusal {
    // Its number.
    pub fn number(self) -> u8
        ensures { result ≡ number_of self }
    {
        self as u8
    }
}

// The number of an answer: 0 where the call is done.
pub fn answer(done: Result<(), Refusal>) -> u8
    ensures { result ≡ answered done }
{
    match done {
        Ok(()) => 0,
        Err(refusal) => refusal.number(),
    }
}
