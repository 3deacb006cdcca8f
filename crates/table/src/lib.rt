// The table of 896 actions: what a byte asks for in a reading state is one entry of it.
#![tactic(auto)]

ghost use Rattle.std.specs.Prelude.{◌≡◌, ◌<◌};
ghost use Rattle.reading.specs.Action.{number_of};
ghost use Rattle.reading.specs.Reading.{action_of};
ghost use Rattle.table.specs.Table.{numbers_of, Tabled};

mod entries;

use reading::Action;

// The table, to be lent to `action`: named once for a whole stream, since naming it copies it.
pub fn actions() -> [[Action; 128]; 7]
    ensures { Tabled (numbers_of result) }
{
    [
        entries::plain(),
        entries::after_esc(),
        entries::in_group(),
        entries::in_cursor(),
        entries::in_enhance(),
        entries::in_other(),
        entries::after_set(),
    ]
}

// The action of a byte in a reading state.
pub fn action(table: &[[Action; 128]; 7], reading: u8, byte: u8) -> Action
    requires state { reading < 7 }
    requires tabled { Tabled (numbers_of table.now) }
    ensures { number_of result ≡ action_of reading byte }
{
    table[reading as usize][(byte % 128) as usize]
}
