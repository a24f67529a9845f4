//! The kinds of line, and where their fields stand.

ghost use Rattle.std.specs.Prelude.{◌≡◌, ◌≤◌};
ghost use Rattle.std.specs.Option.{ok_or};
ghost use Rattle.event.specs.declared.denial.Denial.TheVariants.{Line};
ghost use Rattle.recording.specs.Layout.{lettered, layout as layout_of, fills as fills_field, column as column_of, position_number};

use event::{Denial, Kind};

/// What a line says, by its letter.
#[derive(Clone, Copy)]
pub enum LineKind {
    Header,
    Event(Kind),
    Link,
    Place,
    End,
}

/// The position of one of a line's five fields.
#[derive(Clone, Copy)]
pub(crate) enum Position {
    First = 1,
    Second,
    Third,
    Fourth,
    Fifth,
}

impl Position {
    /// All five, in their order.
    pub(crate) const ALL: [Position; 5] = [
        Position::First,
        Position::Second,
        Position::Third,
        Position::Fourth,
        Position::Fifth,
    ];

    // Not `u8::from`, which would make both promises in one member.
    pub(crate) fn number(self) -> u8
        ensures its_number { result ≡ position_number self }
        ensures one_of_five { (1 ≤ result) × (result ≤ 5) }
    {
        self as u8
    }
}

impl TryFrom<u8> for LineKind {
    type Error = Denial;

    ghost try_from_gives = { λ letter r. r ≡ ok_or (lettered letter) Line };

    fn try_from(letter: u8) -> Result<LineKind, Denial> {
        match letter {
            b'F' => Ok(LineKind::Event(Kind::Fence)),
            b'H' => Ok(LineKind::Header),
            b'L' => Ok(LineKind::Link),
            b'P' => Ok(LineKind::Place),
            b'R' => Ok(LineKind::Event(Kind::Read)),
            b'U' => Ok(LineKind::Event(Kind::Update)),
            b'W' => Ok(LineKind::Event(Kind::Write)),
            b'Z' => Ok(LineKind::End),
            _ => Err(Denial::Line),
        }
    }
}

impl LineKind {
    /// Which of the five fields a line of this kind fills.
    // The rows of the format's table, so that the two can be compared row by row.
    fn layout(self) -> [bool; 5]
        ensures { result ≡ layout_of self }
    {
        match self {
            LineKind::Header | LineKind::Event(Kind::Update) => [true; 5],
            LineKind::Event(Kind::Read) => [true, true, true, false, true],
            LineKind::Event(Kind::Write) => [true, true, false, true, true],
            LineKind::Event(Kind::Fence) => [true, false, false, false, true],
            LineKind::Link | LineKind::Place => [true, true, false, false, false],
            LineKind::End => [false; 5],
        }
    }

    pub(crate) fn fills(self, position: Position) -> bool
        ensures { result ≡ fills_field self (position_number position) }
    {
        self.layout()[position.number() as usize - 1]
    }
}

/// The first column of the field at a position; the newline's is that of position 6.
pub(crate) fn column(position: u8) -> u8
    ensures { result ≡ column_of position }
{
    // A table of the format, which no rule gives: no field has the position 0 or one above 6.
    match position {
        1 => 2,
        2 => 6,
        3 => 10,
        4 => 21,
        5 => 32,
        6 => 34,
        _ => 0,
    }
}
