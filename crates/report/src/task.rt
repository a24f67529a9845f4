//! The program's whole task, from the bytes of a recording to the page.

ghost use Rattle.std.specs.Prelude.{◌≡◌, ℕ, ◌<◌, ◌≤◌, List, length, take, IfOk, Err};
ghost use Rattle.boards.specs.Boards.{meaning_of};
ghost use Rattle.graph.specs.View.{of_closed};
ghost use Rattle.event.specs.declared.denial.Denial.TheVariants.{Page};
ghost use Rattle.recording.specs.Headings.{heading_of};
ghost use Rattle.recording.specs.Meaning.{meaning};
ghost use Rattle.report.specs.Files.{Stands, Told, ToldOf, denial_text};
ghost use Rattle.piles.specs.Piles.{piled};
ghost use Rattle.report.specs.Printing.{LawfullyPrinted};

use crate::denied::denial_line;
use crate::named::pile_of;
use crate::printing::print;
use event::Denial;
use recording::Recording;

/// The bytes of a file that can matter: 1,025 lines.
pub const INPUT: u64 = 34_850;

/// Reads a recording, prints it by the pile of its header, and answers how many bytes then stand on the page.
/// A recording that is denied gets the denial line alone.
pub fn check_recording(bytes: &[u8], page: &mut [u8]) -> Result<usize, Denial>
    ensures a_page_too_short_is_denied_and_left_alone { length page.old < 17934 → (result ≡ Err Page) × (page.new ≡ page.old) }
    ensures else_the_page_tells_what_the_file_means { 17934 ≤ length page.old → Stands (Told (meaning bytes.now)) page.old result page.new }
    ensures what_is_told_fits_the_page { IfOk result (λ n. n ≤ length page.old) }
    ensures no_other_text_is_right { (x y : List ℕ) → Told (meaning bytes.now) x → Told (meaning bytes.now) y → x ≡ y }
    ensures only_the_first_34_850_bytes_matter { meaning bytes.now ≡ meaning (take 34850 bytes.now) }
{
    // No page whose type tells its length: `print` and `denial_line` test it, each in its own order of denials.
    match recording::read(bytes) {
        Ok(recording) => report_recording(recording, page),
        Err(fault) => tell_denial(fault.denial, fault.line, fault.column, page),
    }
}

/// Writes the report, or why there is none; then no line of the file is at fault.
fn report_recording(recording: Recording, page: &mut [u8]) -> Result<usize, Denial>
    ensures short { length page.old < 17934 → (result ≡ Err Page) × (page.new ≡ page.old) }
    ensures long { 17934 ≤ length page.old → Stands (ToldOf (heading_of recording.header) (of_closed recording.graph)) page.old result page.new }
{
    match print_recording(recording, page) {
        Ok(length) => Ok(length),
        Err(denial) => tell_denial(denial, 0, denial.position(), page),
    }
}

/// Prints by the pile that the H line names.
fn print_recording(recording: Recording, page: &mut [u8]) -> Result<usize, Denial>
    ensures { LawfullyPrinted (piled recording.header.strong recording.header.barrier (meaning_of recording.header.model)) (of_closed recording.graph) page.old result page.new }
{
    let Recording { header, graph } = recording;
    print(graph, &pile_of(header), page)
}

/// Writes the line that tells a denial.
// Not a `Fault`: where no line is at fault, the place is no column.
fn tell_denial(denial: Denial, line: usize, place: u8, page: &mut [u8]) -> Result<usize, Denial>
    requires { line ≤ 9999 }
    ensures short { length page.old < 17934 → (result ≡ Err Page) × (page.new ≡ page.old) }
    ensures long { 17934 ≤ length page.old → Stands (λ x. x ≡ denial_text denial line place) page.old result page.new }
{
    denial_line(denial.number() as usize, line, place as usize, page)
}
