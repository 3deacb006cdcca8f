// Reading host bytes: the actions, the number being read, the next reading state.
#![tactic(auto)]

ghost use Rattle.std.specs.Prelude.{◌≡◌, ◌+◌, ◌-◌, ◌*◌, ◌≤◌, ◌<◌, min};
ghost use Rattle.reading.specs.Reading.{unbegun, settled, counted, next_reading, sound_number};
ghost use Rattle.reading.specs.Action.{number_of};

mod action;

pub use action::Action;

// The reading state after a settled action.
#[tactic(auto, unfolding(crate::specs::Reading::next_reading))]
pub fn next_reading(a: Action) -> u8
    ensures { result ≡ next_reading (number_of a) }
{
    match a {
        Action::Esc => 1,
        Action::ToGroup => 2,
        Action::ToCursor
        | Action::Plus
        | Action::Minus
        | Action::Digit
        | Action::ColumnOn
        | Action::RowOn
        | Action::WindowOn => 3,
        Action::ToEnhance => 4,
        Action::ToOther | Action::Stay => 5,
        Action::ToSet => 6,
        _ => 0,
    }
}

// The number being read: sign 0 none, 1 plus, 2 minus; whether a digit came; its value, at most 999.
// The sign stays a number: it is part of the state that C hands in, which may be any, and `is_sound` tests it.
#[derive(Clone, Copy, Default)]
pub struct Number {
    pub sign: u8,
    pub digit: bool,
    pub value: usize,
}

// The value with one digit more, at most 999.
fn add_digit(value: usize, b: u8) -> usize
    requires { value ≤ 999 }
    ensures { result ≡ min 999 (value * 10 + (b - 48)) }
{
    (value * 10 + b.saturating_sub(48) as usize).min(999)
}

impl Number {
    // Whether a good state can hold the number in a reading state.
    #[tactic(auto, unfolding(crate::specs::Reading::sound_number))]
    pub fn is_sound(self, reading: u8) -> bool
        ensures { result ≡ sound_number reading self }
    {
        self.value <= 999
            && self.sign < 3
            && (self.digit || self.value == 0)
            && (reading == 3 || self.is_unbegun())
    }

    // Whether neither sign nor digit came yet.
    #[tactic(auto, unfolding(crate::specs::Reading::unbegun))]
    pub fn is_unbegun(self) -> bool
        ensures { result ≡ unbegun self }
    {
        self.sign == 0 && !self.digit
    }

    // The action, or `Rest` for a sign that does not stand first.
    #[tactic(auto, unfolding(crate::specs::Reading::settled))]
    pub fn settle(self, a: Action) -> Action
        ensures { number_of result ≡ settled (number_of a) self }
    {
        match a {
            Action::Plus | Action::Minus if !self.is_unbegun() => Action::Rest,
            _ => a,
        }
    }

    // The number after a settled action of the byte `b`.
    #[tactic(auto, unfolding(crate::specs::Reading::counted))]
    pub fn count(self, a: Action, b: u8) -> Number
        requires { self.value ≤ 999 }
        ensures { result ≡ counted (number_of a) b self }
    {
        match a {
            Action::Plus => Number {
                sign: 1,
                ..Number::default()
            },
            Action::Minus => Number {
                sign: 2,
                ..Number::default()
            },
            Action::Digit => Number {
                sign: self.sign,
                digit: true,
                value: add_digit(self.value, b),
            },
            _ => Number::default(),
        }
    }
}
