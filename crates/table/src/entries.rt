// The action of each of the seven reading states at each of the 128 byte values, one row of 128 for each state. Beside the first and the last of entries that
// are alike stands their byte.
ghost use Rattle.std.specs.Prelude.{◌≡◌, map};
ghost use Rattle.reading.specs.Action.{number_of};
ghost use Rattle.table.specs.Table.{row_of};

use reading::Action::{self, *};

// Reading state 0, plain.
const PLAIN: [Action; 128] = [
    Rest, // 0
    Rest, Rest, Rest, Rest, // 4
    Ack, // 5 ENQ
    Rest, // 6
    Rest, // 7
    Left, // 8 BS
    Tab, // 9 HT
    LineFeed, // 10 LF
    Rest, // 11
    Rest, // 12
    Column0, // 13 CR
    Rest, // 14
    Rest, Rest, // 16
    Trigger, // 17 DC1
    Rest, // 18
    Rest, Rest, Rest, Rest, Rest, Rest, Rest, Rest, // 26
    Esc, // 27 ESC in state 0
    Rest, // 28
    Rest, Rest, Rest, // 31
    Text, // 32 blank
    Text, Text, Text, Text, Text, Text, Text, Text, Text, Text, Text, Text, Text, Text, Text, Text,
    Text, Text, Text, Text, Text, Text, Text, Text, Text, Text, Text, Text, Text, Text, Text, Text,
    Text, Text, Text, Text, Text, Text, Text, Text, Text, Text, Text, Text, Text, Text, Text, Text,
    Text, Text, Text, Text, Text, Text, Text, Text, Text, Text, Text, Text, Text, Text, Text, Text,
    Text, Text, Text, Text, Text, Text, Text, Text, Text, Text, Text, Text, Text, Text, Text, Text,
    Text, Text, Text, Text, Text, Text, Text, Text, Text, Text, Text, Text, Text, Text, // 126 ~
    Rest, // 127 DEL
];

// Reading state 1, after ESC.
const AFTER_ESC: [Action; 128] = [
    Rest, // 0
    Rest,
    Rest,
    Rest,
    Rest,
    Rest,
    Rest,
    Rest,
    Rest,
    Rest,
    Rest,
    Rest,
    Rest,
    Rest,
    Rest,
    Rest,
    Rest,
    Rest,
    Rest,
    Rest,
    Rest,
    Rest,
    Rest,
    Rest,
    Rest,
    Rest,
    Rest, // 26
    Esc, // 27 ESC in state 1
    Rest, // 28
    Rest,
    Rest,
    Rest,
    Rest,
    Rest,
    Rest,
    Rest,
    Rest,
    Rest, // 37 %
    ToGroup, // 38 &
    Rest, // 39 '
    Rest, // 40 (
    ToSet, // 41 )
    Rest, // 42 *
    Rest,
    Rest,
    Rest,
    Rest,
    Rest,
    Rest, // 48 0
    SetTab, // 49 1
    ClearTab, // 50 2
    ClearTabs, // 51 3
    Rest, // 52 4
    Rest, // 53 5
    Turn2, // 54 6
    Turn3, // 55 7
    Turn1, // 56 8
    Rest, // 57 9
    Rest,
    Rest,
    Rest,
    Rest,
    Rest,
    Rest,
    Rest, // 64 @
    Up, // 65 A
    Down, // 66 B
    Right, // 67 C
    Left, // 68 D
    HardReset, // 69 E
    HomeDown, // 70 F
    Column0, // 71 G
    Home, // 72 H
    Tab, // 73 I
    ClearDisplay, // 74 J
    ClearLine, // 75 K
    InsertRow, // 76 L
    DeleteRow, // 77 M
    Rest, // 78 N
    Rest, // 79 O
    DeleteChar, // 80 P
    InsertOn, // 81 Q
    InsertOff, // 82 R
    RollUp, // 83 S
    RollDown, // 84 T
    NextPage, // 85 U
    PrevPage, // 86 V
    FormatOn, // 87 W
    FormatOff, // 88 X
    Rest, // 89 Y
    Rest, // 90 Z
    Mark1, // 91 [
    Rest, // 92 \
    Mark5, // 93 ]
    AskStatus, // 94 ^
    Rest, // 95 _
    AskWindow, // 96 `
    AskAbsolute, // 97 a
    LockOff, // 98 b
    LockOn, // 99 c
    AskBlock, // 100 d
    Rest, // 101 e
    Rest, // 102 f
    SoftReset, // 103 g
    HomeAll, // 104 h
    BackTab, // 105 i
    Rest, // 106 j
    Rest,
    Rest,
    Rest,
    Rest,
    Rest,
    Rest,
    Rest,
    Rest,
    Rest,
    Rest,
    Rest,
    Rest,
    Rest,
    Rest,
    Rest,
    Rest, // 122 z
    Mark4, // 123 {
    Rest, // 124 |
    Rest,
    Rest,
    Rest, // 127 DEL
];

// Reading state 2, after ESC &.
const IN_GROUP: [Action; 128] = [
    Rest, // 0
    Rest, Rest, Rest, Rest, Rest, Rest, Rest, Rest, Rest, Rest, Rest, Rest, Rest, Rest, Rest, Rest,
    Rest, Rest, Rest, Rest, Rest, Rest, Rest, Rest, Rest, Rest, // 26
    Esc, // 27 ESC in state 2
    Rest, // 28
    Rest, Rest, Rest, Rest, Rest, Rest, Rest, Rest, Rest, Rest, Rest, Rest, Rest, Rest, Rest, Rest,
    Rest, Rest, Rest, Rest, Rest, Rest, Rest, Rest, Rest, Rest, Rest, Rest, Rest, Rest, Rest, Rest,
    Rest, Rest, Rest, Rest, Rest, Rest, Rest, Rest, Rest, Rest, Rest, Rest, Rest, Rest, Rest, Rest,
    Rest, Rest, Rest, Rest, Rest, Rest, Rest, Rest, Rest, Rest, Rest, Rest, Rest, Rest, Rest, Rest,
    Rest, Rest, Rest, Rest, // 96 `
    ToCursor, // 97 a
    ToOther, // 98 b
    ToOther, // 99 c
    ToEnhance, // 100 d
    ToOther, // 101 e
    ToOther, ToOther, ToOther, ToOther, ToOther, ToOther, ToOther, ToOther, ToOther, ToOther,
    ToOther, ToOther, ToOther, ToOther, ToOther, ToOther, ToOther, ToOther, ToOther, ToOther,
    ToOther, // 122 z
    Rest, // 123 {
    Rest, Rest, Rest, Rest, // 127 DEL
];

// Reading state 3, in ESC & a.
const IN_CURSOR: [Action; 128] = [
    Rest, // 0
    Rest, Rest, Rest, Rest, Rest, Rest, Rest, Rest, Rest, Rest, Rest, Rest, Rest, Rest, Rest, Rest,
    Rest, Rest, Rest, Rest, Rest, Rest, Rest, Rest, Rest, Rest, // 26
    Esc, // 27 ESC in state 3
    Rest, // 28
    Rest, Rest, Rest, Rest, Rest, Rest, Rest, Rest, Rest, Rest, Rest, Rest, Rest, Rest, // 42 *
    Plus, // 43 +
    Rest, // 44 ,
    Minus, // 45 -
    Rest, // 46 .
    Rest, // 47 /
    Digit, // 48 0
    Digit, Digit, Digit, Digit, Digit, Digit, Digit, Digit, Digit, // 57 9
    Rest, // 58 :
    Rest, Rest, Rest, Rest, Rest, Rest, Rest, Rest, // 66 B
    ColumnEnd, // 67 C
    Rest, // 68 D
    Rest, Rest, Rest, Rest, Rest, Rest, Rest, Rest, Rest, Rest, Rest, Rest, Rest, // 81 Q
    RowEnd, // 82 R
    Rest, // 83 S
    Rest, Rest, Rest, Rest, Rest, // 88 X
    WindowEnd, // 89 Y
    Rest, // 90 Z
    Rest, Rest, Rest, Rest, Rest, Rest, Rest, Rest, // 98 b
    ColumnOn, // 99 c
    Rest, // 100 d
    Rest, Rest, Rest, Rest, Rest, Rest, Rest, Rest, Rest, Rest, Rest, Rest, Rest, // 113 q
    RowOn, // 114 r
    Rest, // 115 s
    Rest, Rest, Rest, Rest, Rest, // 120 x
    WindowOn, // 121 y
    Rest, // 122 z
    Rest, Rest, Rest, Rest, Rest, // 127 DEL
];

// Reading state 4, in ESC & d.
const IN_ENHANCE: [Action; 128] = [
    Rest, // 0
    Rest, Rest, Rest, Rest, Rest, Rest, Rest, Rest, Rest, Rest, Rest, Rest, Rest, Rest, Rest, Rest,
    Rest, Rest, Rest, Rest, Rest, Rest, Rest, Rest, Rest, Rest, // 26
    Esc, // 27 ESC in state 4
    Rest, // 28
    Rest, Rest, Rest, Rest, Rest, Rest, Rest, Rest, Rest, Rest, Rest, Rest, Rest, Rest, Rest, Rest,
    Rest, Rest, Rest, Rest, Rest, Rest, Rest, Rest, Rest, Rest, Rest, Rest, Rest, Rest, Rest, Rest,
    Rest, Rest, Rest, // 63 ?
    Enhance, // 64 @
    Enhance, Enhance, Enhance, Enhance, Enhance, Enhance, Enhance, Enhance, Enhance, Enhance,
    Enhance, Enhance, Enhance, Enhance, Enhance, // 79 O
    Rest, // 80 P
    Rest, Rest, Rest, Rest, Rest, Rest, Rest, Rest, Rest, Rest, Rest, Rest, Rest, Rest, Rest, Rest,
    Rest, Rest, Rest, Rest, Rest, Rest, Rest, Rest, Rest, Rest, Rest, Rest, Rest, Rest, Rest, Rest,
    Rest, Rest, Rest, Rest, Rest, Rest, Rest, Rest, Rest, Rest, Rest, Rest, Rest, Rest, Rest, // 127 DEL
];

// Reading state 5, in another ESC & group.
const IN_OTHER: [Action; 128] = [
    Rest, // 0
    Rest, Rest, Rest, Rest, Rest, Rest, Rest, Rest, Rest, Rest, Rest, Rest, Rest, Rest, Rest, Rest,
    Rest, Rest, Rest, Rest, Rest, Rest, Rest, Rest, Rest, Rest, // 26
    Esc, // 27 ESC in state 5
    Rest, // 28
    Rest, Rest, Rest, // 31
    Stay, // 32 blank
    Stay, Stay, Stay, Stay, Stay, Stay, Stay, Stay, Stay, Stay, Stay, Stay, Stay, Stay, Stay, Stay,
    Stay, Stay, Stay, Stay, Stay, Stay, Stay, Stay, Stay, Stay, Stay, Stay, Stay, Stay, Stay, // 63 ?
    Rest, // 64 @
    Rest, Rest, Rest, Rest, Rest, Rest, Rest, Rest, Rest, Rest, Rest, Rest, Rest, Rest, Rest, Rest,
    Rest, Rest, Rest, Rest, Rest, Rest, Rest, Rest, Rest, Rest, // 90 Z
    Stay, // 91 [
    Stay, Stay, Stay, Stay, Stay, Stay, Stay, Stay, Stay, Stay, Stay, Stay, Stay, Stay, Stay, Stay,
    Stay, Stay, Stay, Stay, Stay, Stay, Stay, Stay, Stay, Stay, Stay, Stay, Stay, Stay, Stay, Stay,
    Stay, Stay, Stay, Stay, // 127 DEL
];

// Reading state 6, after ESC ).
const AFTER_SET: [Action; 128] = [
    Rest, // 0
    Rest, Rest, Rest, Rest, Rest, Rest, Rest, Rest, Rest, Rest, Rest, Rest, Rest, Rest, Rest, Rest,
    Rest, Rest, Rest, Rest, Rest, Rest, Rest, Rest, Rest, Rest, // 26
    Esc, // 27 ESC in state 6
    Rest, // 28
    Rest, Rest, Rest, Rest, Rest, Rest, Rest, Rest, Rest, Rest, Rest, Rest, Rest, Rest, Rest, Rest,
    Rest, Rest, Rest, Rest, Rest, Rest, Rest, Rest, Rest, Rest, Rest, Rest, Rest, Rest, Rest, Rest,
    Rest, Rest, Rest, Rest, Rest, Rest, Rest, Rest, Rest, Rest, Rest, Rest, Rest, Rest, Rest, Rest,
    Rest, Rest, Rest, Rest, Rest, Rest, Rest, Rest, Rest, Rest, Rest, Rest, Rest, Rest, Rest, Rest,
    Rest, Rest, Rest, Rest, Rest, Rest, Rest, Rest, Rest, Rest, Rest, Rest, Rest, Rest, Rest, Rest,
    Rest, Rest, Rest, Rest, Rest, Rest, Rest, Rest, Rest, Rest, Rest, Rest, Rest, Rest, Rest, Rest,
    Rest, Rest, Rest, // 127 DEL
];

// The row of reading state 0.
pub fn plain() -> [Action; 128]
    ensures { map number_of result ≡ row_of 0 }
{
    PLAIN
}

// The row of reading state 1.
pub fn after_esc() -> [Action; 128]
    ensures { map number_of result ≡ row_of 1 }
{
    AFTER_ESC
}

// The row of reading state 2.
pub fn in_group() -> [Action; 128]
    ensures { map number_of result ≡ row_of 2 }
{
    IN_GROUP
}

// The row of reading state 3.
pub fn in_cursor() -> [Action; 128]
    ensures { map number_of result ≡ row_of 3 }
{
    IN_CURSOR
}

// The row of reading state 4.
pub fn in_enhance() -> [Action; 128]
    ensures { map number_of result ≡ row_of 4 }
{
    IN_ENHANCE
}

// The row of reading state 5.
pub fn in_other() -> [Action; 128]
    ensures { map number_of result ≡ row_of 5 }
{
    IN_OTHER
}

// The row of reading state 6.
pub fn after_set() -> [Action; 128]
    ensures { map number_of result ≡ row_of 6 }
{
    AFTER_SET
}
