//! Printing a closed graph.

ghost use Rattle.graph.specs.View.{of_closed};
ghost use Rattle.report.specs.Printing.{LawfullyPrinted, OneReport, ReportsFit};

use crate::denied::PAGE;
use crate::row::Row;
use crate::verdicts::report;
use event::Denial;
use graph::Closed;
use judge::Judge;
use model::Model;

/// Uses up a closed graph: judges it, writes the report at the page's start and answers the report's length.
pub fn print<M: Model>(graph: Closed, model: &M, page: &mut [u8]) -> Result<usize, Denial>
    ensures the_right_report_and_the_law_holds_of_every_run_that_makes_this_graph { LawfullyPrinted (M.Model.meaning model.now) (of_closed graph) page.old result page.new }
    ensures no_other_result_or_page_is_right { OneReport }
    ensures every_report_fits_the_shortest_page { ReportsFit }
{
    let mut sheet = [0u16; 1280];
    let verdict = graph.judge(model, &mut sheet)?;
    if page.len() < PAGE {
        return Err(Denial::Page);
    }
    let sheet = Row { numbers: &sheet };
    Ok(report(graph.graph(), verdict, model.orders(), sheet, page))
}
