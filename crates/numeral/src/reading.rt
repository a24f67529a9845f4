//! Reads the number that a field holds.

ghost use Rattle.std.specs.Prelude.{◌≡◌, ℕ, ◌↔◌, Some, None};
ghost use Rattle.numeral.specs.Numerals.{Holds, figure, numeral, unpadded};

/// The number that the field holds: spaces, and then its decimal numeral to the field's end.
pub fn read(field: &[u8]) -> Option<u32>
    ensures the_answer_is_the_numeral_of_the_field { result ≡ numeral field.now }
    ensures some_number_exactly_when_the_field_is_that_number_justified { (n : ℕ) → (result ≡ Some n) ↔ Holds field.now n }
    ensures none_exactly_when_the_field_is_no_number_justified { (result ≡ None) ↔ ((n : ℕ) → Holds field.now n → ⊥) }
{
    figures(trimmed(field))
}

/// What follows the leading spaces.
fn trimmed(field: &[u8]) -> &[u8]
    ensures { result.now ≡ unpadded field.now }
{
    let mut rest = field;
    // Not `trim_ascii_start`: a tab is no space.
    while let [b' ', after @ ..] = rest {
        rest = after;
    }
    rest
}

/// The number of a bare numeral, which has no sign and no zero in front of other digits: `str::parse` takes both.
fn figures(digits: &[u8]) -> Option<u32>
    ensures { result ≡ figure digits.now }
{
    if let [] | [b'0', _, ..] = digits {
        return None;
    }
    let mut number: u32 = 0;
    for digit in digits {
        if !digit.is_ascii_digit() {
            return None;
        }
        number = number
            .checked_mul(10)?
            .checked_add(u32::from(*digit - b'0'))?;
    }
    Some(number)
}
