//! The verdict on a graph.
ghost use Rattle.graph.specs.View.{view, of_open, of_closed};
ghost use Rattle.verdict.specs.States.{State, as_open, as_closed};
ghost use Rattle.verdict.specs.Judging.{Judged, OneVerdict};
ghost use Rattle.verdict.specs.Law.{Lawful};

use crate::denial::{check_judge, check_links};
use crate::showing::write;
use crate::under::Under;
use event::Denial;
use graph::{Closed, Graph, Open};
use model::Model;
use verdict::Verdict;

/// A graph that can be judged. A judge changes nothing but the sheet that it is handed.
pub trait Judge {
    /// The graph, and whether it is closed.
    ghost state: { Self → State };

    /// Whether some full modification order that extends the placements leaves every order of the model free of cycles.
    /// The sheet shows the verdict from its start on: the first cycle; or the list of all events for each order
    /// and then each location's modification order. What lies past that stays, as does all of it otherwise.
    fn judge<M: Model>(&self, model: &M, sheet: &mut [u16]) -> Result<Verdict, Denial>
        ensures judged_rightly_and_the_law_holds_of_every_run_that_makes_this_graph { Lawful (M.Model.meaning model.now) (state self.now) sheet.old result sheet.new }
        ensures no_other_result_or_sheet_is_right { OneVerdict };
}

impl Judge for Open {
    ghost state = { λ o. as_open (of_open o) };

    fn judge<M: Model>(&self, model: &M, sheet: &mut [u16]) -> Result<Verdict, Denial> {
        judge_graph(self.graph(), model, sheet)
    }
}

impl Judge for Closed {
    ghost state = { λ c. as_closed (of_closed c) };

    fn judge<M: Model>(&self, model: &M, sheet: &mut [u16]) -> Result<Verdict, Denial> {
        let graph = self.graph();
        check_links(graph)?;
        judge_graph(graph, model, sheet)
    }
}

/// Judges a graph, whichever reads are linked.
fn judge_graph<M: Model>(graph: &Graph, model: &M, sheet: &mut [u16]) -> Result<Verdict, Denial>
    ensures { Judged (M.Model.meaning model.now) (as_open (view graph.now)) sheet.old result sheet.new }
{
    check_judge(graph, sheet.len())?;
    let under = Under { graph, model };
    if let Some((order, cycle)) = under.first_cycle() {
        write(cycle.as_slice(), sheet);
        return Ok(Verdict::Cycle {
            order: order as u8,
            length: cycle.len() as u16,
        });
    }
    match under.allowed() {
        Some(shown) => {
            write(shown.as_slice(), sheet);
            Ok(Verdict::Allowed)
        }
        None => Ok(Verdict::NoPlacement),
    }
}
