//! One line: its kind, its fields and their numbers.

ghost use Rattle.std.specs.Prelude.{◌≡◌, length, None};
ghost use Rattle.event.specs.Denials.{refusal, unless};
ghost use Rattle.event.specs.declared.denial.Denial.TheVariants.{Blank};
ghost use Rattle.recording.specs.Layout.{field as field_of, is_filled, laid_out, blank_denial, number_denial, field_denial, position_number};

use crate::layout::{LineKind, Position, column};
use event::Denial;

/// A line of the right length and a known letter: what it says, and the rest, where its fields stand.
#[derive(Clone, Copy)]
pub(crate) struct Line<'a> {
    pub(crate) kind: LineKind,
    pub(crate) rest: &'a [u8],
    ghost long: { length rest.now ≡ 33 },
}

impl<'a> Line<'a> {
    ghost use Rattle.recording.specs.OneLine.{Splits, ReadsAt, Reads};

    // No `TryFrom`: it would be public, and a line is the crate's own.
    pub(crate) fn of(line: &'a [u8]) -> Result<Line<'a>, Denial>
        ensures { Splits line.now result }
    {
        let [letter, rest @ ..] = line else {
            return Err(Denial::Line);
        };
        if rest.len() != 33 || rest[32] != b'\n' {
            return Err(Denial::Line);
        }
        let kind = LineKind::try_from(*letter)?;
        Ok(Line { kind, rest })
    }

    fn field(self, position: Position) -> &'a [u8]
        ensures { result.now ≡ field_of self.entry.rest.now (position_number position) }
    {
        let position = position.number();
        // Columns count from 1, and the letter has the first.
        &self.rest[column(position) as usize - 2..column(position + 1) as usize - 2]
    }

    /// Denies a field that is filled or empty against the layout.
    fn agrees(self, position: Position) -> Result<(), Denial>
        ensures { refusal result ≡ unless (laid_out self.entry.kind self.entry.rest.now (position_number position)) (Blank (position_number position)) None }
    {
        if self.kind.fills(position) != is_filled(self.field(position)) {
            return Err(Denial::Blank(position.number()));
        }
        Ok(())
    }

    /// The number in a field, 0 where the layout leaves it blank.
    fn number(self, position: Position) -> Result<u32, Denial>
        ensures { ReadsAt self.entry.kind self.entry.rest.now (position_number position) result }
    {
        if !self.kind.fills(position) {
            return Ok(0);
        }
        numeral::read(self.field(position)).ok_or(Denial::Number(position.number()))
    }

    fn layout(self) -> Result<(), Denial>
        ensures { refusal result ≡ blank_denial self.entry.kind self.entry.rest.now }
    {
        for position in Position::ALL {
            self.agrees(position)?;
        }
        Ok(())
    }

    fn numbers(self) -> Result<[u32; 5], Denial>
        ensures { Reads self.entry.kind self.entry.rest.now (number_denial self.entry.kind self.entry.rest.now) result }
    {
        let mut numbers = [0; 5];
        // By index: after `zip` over `iter_mut` (tried) nothing is known of the array, and `try_map` may give another error than the first.
        for (i, position) in Position::ALL.iter().enumerate() {
            numbers[i] = self.number(*position)?;
        }
        Ok(numbers)
    }

    /// The numbers of the five fields, all of which are tested against the layout first.
    pub(crate) fn fields(self) -> Result<[u32; 5], Denial>
        ensures { Reads self.entry.kind self.entry.rest.now (field_denial self.entry.kind self.entry.rest.now) result }
    {
        self.layout()?;
        self.numbers()
    }
}

/// Whether some byte is no space.
fn is_filled(field: &[u8]) -> bool
    ensures { result ≡ is_filled field.now }
{
    field.iter().any(|byte| *byte != b' ')
}
