//! A line of the report, byte by byte.

ghost use Rattle.std.specs.Prelude.{◌≡◌};
ghost use Rattle.report.specs.Pages.{report_line};

use crate::column::Column;

/// A letter, three numbers of four columns each, and a newline.
pub(crate) fn report_line(letter: u8, first: Column, second: Column, third: Column) -> [u8; 14]
    ensures { result ≡ report_line letter first.number second.number third.number }
{
    let [a, b, c, d] = first.bytes();
    let [e, f, g, h] = second.bytes();
    let [i, j, k, l] = third.bytes();
    [letter, a, b, c, d, e, f, g, h, i, j, k, l, b'\n']
}
