//! Writes a number into a field.

ghost use Rattle.std.specs.Prelude.{◌≡◌, ◌<◌, ◌≤◌, true, false, length, is_ok, Some, decimal};
ghost use Rattle.numeral.specs.Numerals.{justified, numeral};

/// The numeral has more digits than the field has bytes.
#[derive(Clone, Copy, PartialEq, Eq, Debug)]
pub struct TooNarrow;

/// Writes the number right-justified, with spaces in front; a field that is too narrow is left alone.
pub fn write(number: u32, field: &mut [u8]) -> Result<(), TooNarrow>
    ensures a_number_that_fits_stands_justified { length (decimal number) ≤ length field.old → (is_ok result ≡ true) × (field.new ≡ justified (length field.old) number) }
    ensures a_field_too_narrow_is_left_as_it_was { length field.old < length (decimal number) → (is_ok result ≡ false) × (field.new ≡ field.old) }
    ensures what_is_written_reads_back { is_ok result ≡ true → numeral field.new ≡ Some number }
{
    let Some(start) = field.len().checked_sub(digits(number)) else {
        return Err(TooNarrow);
    };
    let (front, back) = field.split_at_mut(start);
    front.fill(b' ');
    spell(number, back);
    Ok(())
}

/// How many digits the number's numeral has.
fn digits(number: u32) -> usize
    ensures { result ≡ length (decimal number) }
{
    number.max(1).ilog10() as usize + 1
}

/// Writes the numeral over a field as wide as it: the last digit into the last byte, and the others in front of it.
fn spell(number: u32, field: &mut [u8])
    requires { length field.old ≡ length (decimal number) }
    ensures { field.new ≡ decimal number }
{
    // Not a loop over `iter_mut().rev()`: tried, and nothing is known of what a slice holds after a loop over it in reverse.
    if let Some((last, others)) = field.split_last_mut() {
        *last = b'0' + (number % 10) as u8;
        if number >= 10 {
            spell(number / 10, others);
        }
    }
}
