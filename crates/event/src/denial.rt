//! Denials: why a call is refused, each with its number and position.

ghost use Rattle.std.specs.Prelude.{◌≡◌};
ghost use Rattle.event.specs.Denials.{denial_number, denial_position};

/// Why a call is denied, with the position at fault where it varies.
#[derive(Clone, Copy, PartialEq, Eq, Debug)]
pub enum Denial {
    Range(u8),
    Mode,
    Full,
    Kind(u8),
    Site,
    Value,
    Twice,
    Loose,
    Unread(u8),
    Sheet,
    Wide,
    Page,
    Line,
    Frame,
    Blank(u8),
    Number(u8),
}

impl Denial {
    // Not `u8::from`: a denial has two numbers, and a conversion would not say which it gives.
    pub fn number(self) -> u8
        ensures number_of_its_case { result ≡ denial_number self }
    {
        match self {
            Denial::Range(_) => 1,
            Denial::Mode => 2,
            Denial::Full => 3,
            Denial::Kind(_) => 4,
            Denial::Site => 5,
            Denial::Value => 6,
            Denial::Twice => 7,
            Denial::Loose => 8,
            Denial::Unread(_) => 9,
            Denial::Sheet => 10,
            Denial::Wide => 11,
            Denial::Page => 12,
            Denial::Line => 13,
            Denial::Frame => 14,
            Denial::Blank(_) => 15,
            Denial::Number(_) => 16,
        }
    }

    pub fn position(self) -> u8
        ensures position_of_its_case { result ≡ denial_position self }
    {
        match self {
            Denial::Range(at) | Denial::Kind(at) | Denial::Unread(at) => at,
            Denial::Blank(at) | Denial::Number(at) => at,
            Denial::Twice => 1,
            Denial::Site | Denial::Value | Denial::Loose => 2,
            Denial::Mode => 5,
            Denial::Full | Denial::Sheet | Denial::Wide | Denial::Page => 0,
            Denial::Line | Denial::Frame => 0,
        }
    }
}
