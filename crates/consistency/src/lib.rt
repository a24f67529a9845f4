//! Judging a closed graph by one of the five models, in the textbook's terms.
#![tactic(auto)]

ghost use Rattle.boards.specs.Boards.{meaning_of};
ghost use Rattle.consistency.specs.Consistency.{AllowedExactlyWhenConsistent};
ghost use Rattle.graph.specs.View.{of_closed};
ghost use Rattle.std.specs.Prelude.{IfOk};
ghost use Rattle.verdict.specs.Law.{Lawful};
ghost use Rattle.verdict.specs.States.{as_closed};

use boards::Board;
use event::Denial;
use graph::Closed;
use judge::Judge;
use verdict::Verdict;

/// Judges a closed graph: is there a modification order, extending the placements, that makes it consistent?
pub fn judge_by(board: Board, graph: &Closed, sheet: &mut [u16]) -> Result<Verdict, Denial>
    ensures judged_with_the_law_over_all_dealings { Lawful (meaning_of board) (as_closed (of_closed graph.now)) sheet.old result sheet.new }
    ensures allowed_exactly_when_some_modification_order_makes_it_consistent { IfOk result (λ v. AllowedExactlyWhenConsistent board (of_closed graph.now) v) }
{
    graph.judge(&board, sheet)
}
