//! Judging a recording by the model and the layers that its H line names.

ghost use Rattle.boards.specs.Boards.{meaning_of};
ghost use Rattle.graph.specs.View.{of_closed};
ghost use Rattle.piles.specs.Piles.{piled};
ghost use Rattle.verdict.specs.Law.{Lawful};
ghost use Rattle.verdict.specs.States.{as_closed};

use crate::named::pile_of;
use event::Denial;
use judge::Judge;
use recording::Recording;
use verdict::Verdict;

/// Judges a recording by the pile that its H line names.
pub fn judge_recording(recording: &Recording, sheet: &mut [u16]) -> Result<Verdict, Denial>
    ensures judged_by_the_pile_of_its_header { Lawful (piled recording.now.header.strong recording.now.header.barrier (meaning_of recording.now.header.model)) (as_closed (of_closed recording.now.graph)) sheet.old result sheet.new }
{
    let pile = pile_of(recording.header);
    recording.graph.judge(&pile, sheet)
}
