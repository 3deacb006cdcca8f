// The keys by name.
ghost use Rattle.key.specs.Codes.{Decodes};

// A code that no key has.
#[derive(Clone, Copy, Debug, PartialEq, Eq)]
pub struct Unlisted;

// The keys that are listed: text by its code, 32 to 126, and the others by what they do.
#[derive(Clone, Copy, Debug, PartialEq, Eq)]
pub enum Key {
    Text(u8),
    Up,
    Down,
    Right,
    Left,
    Home,
    HomeDown,
    Tab,
    BackTab,
    ClearDisplay,
    ClearLine,
    Insert,
    DeleteChar,
    Column0,
    RollUp,
    RollDown,
    NextPage,
    PrevPage,
    Enter,
}

// The key of a code.
impl TryFrom<u16> for Key {
    type Error = Unlisted;

    ghost try_from_gives = { Decodes };

    fn try_from(code: u16) -> Result<Key, Unlisted> {
        match code {
            32..=126 => Ok(Key::Text(code as u8)),
            256 => Ok(Key::Up),
            257 => Ok(Key::Down),
            258 => Ok(Key::Right),
            259 => Ok(Key::Left),
            260 => Ok(Key::Home),
            261 => Ok(Key::HomeDown),
            262 => Ok(Key::Tab),
            263 => Ok(Key::BackTab),
            264 => Ok(Key::ClearDisplay),
            265 => Ok(Key::ClearLine),
            266 => Ok(Key::Insert),
            267 => Ok(Key::DeleteChar),
            268 => Ok(Key::Column0),
            269 => Ok(Key::RollUp),
            270 => Ok(Key::RollDown),
            271 => Ok(Key::NextPage),
            272 => Ok(Key::PrevPage),
            273 => Ok(Key::Enter),
            _ => Err(Unlisted),
        }
    }
}
