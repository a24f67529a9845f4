//! The denial line.

ghost use Rattle.event.specs.Denials.{refusal};
ghost use Rattle.report.specs.Pages.{line_denial, report_line};
ghost use Rattle.std.specs.Prelude.{◌≡◌, length, is_some, IfOk, if◌then◌else◌};
ghost use Rattle.verdict.specs.Answers.{laid};

use crate::column::Column;
use crate::line::report_line;
use event::Denial;

/// The shortest page that takes every report.
pub const PAGE: usize = 17_934;

/// Writes a denial's number, line and place at the page's start, and answers how many bytes that is.
// Plain numbers, each tested: a narrower type would ask more of the caller.
pub fn denial_line(
    number: usize,
    line: usize,
    place: usize,
    page: &mut [u8],
) -> Result<usize, Denial>
    ensures denied_exactly_in_its_cases { refusal result ≡ line_denial number line place (length page.old) }
    ensures the_line_stands_in_front_and_the_rest_stays { page.new ≡ (if is_some (refusal result) then page.old else laid (report_line 68 number line place) page.old) }
    ensures answers_its_length { IfOk result (λ n. n ≡ 14) }
{
    let number = Column::new(number).ok_or(Denial::Range(1))?;
    let line = Column::new(line).ok_or(Denial::Range(2))?;
    let place = Column::new(place).ok_or(Denial::Range(3))?;
    if page.len() < PAGE {
        return Err(Denial::Page);
    }
    page[0..14].copy_from_slice(&report_line(b'D', number, line, place));
    Ok(14)
}
