//! The columns of a line.

ghost use Rattle.std.specs.Prelude.{◌≡◌, ◌≤◌, ◌<◌, MatchOption};
ghost use Rattle.numeral.specs.Numerals.{justified};

/// The largest number of four columns.
const LARGEST: usize = 9_999;

/// A number that fits four columns.
#[derive(Clone, Copy)]
pub(crate) struct Column {
    pub(crate) number: usize,
    ghost fits: { number ≤ 9999 },
}

impl Column {
    /// None where the number has more digits.
    pub(crate) fn new(number: usize) -> Option<Column>
        ensures { MatchOption result (9999 < number) (λ c. c.number ≡ number) }
    {
        if number > LARGEST {
            return None;
        }
        Some(Column::of(number))
    }

    /// A number that is known to fit.
    pub(crate) fn of(number: usize) -> Column
        requires { number ≤ 9999 }
        ensures { result.number ≡ number }
    {
        Column { number }
    }

    /// Right-justified.
    pub(crate) fn bytes(self) -> [u8; 4]
        ensures { result ≡ justified 4 self.number }
    {
        let mut field = [b' '; 4];
        let _ = numeral::write(self.number as u32, &mut field);
        field
    }
}
