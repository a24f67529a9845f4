//! The report of each verdict.

ghost use Rattle.std.specs.Prelude.{◌≡◌, ◌≤◌, length};
ghost use Rattle.graph.specs.View.{view};
ghost use Rattle.report.specs.Flat.{cycle_length, from_sheet};
ghost use Rattle.report.specs.Reports.{writes as all_writes};
ghost use Rattle.report.specs.Texts.{Written};

use crate::column::Column;
use crate::page::Page;
use crate::row::Row;
use graph::Graph;
use verdict::Verdict;

/// Writes the report at the page's start, and answers how many bytes that is.
/// The sheet has the lists and the modification orders of an allowed graph, or the cycle of a forbidden one.
pub(crate) fn report(
    graph: &Graph,
    verdict: Verdict,
    orders: usize,
    sheet: Row,
    page: &mut [u8],
) -> usize
    requires few { orders ≤ 4 }
    requires cycle_fits { cycle_length verdict ≤ 1280 }
    requires sheet_is_long { 1280 ≤ length sheet.numbers.now }
    requires page_is_long { 17934 ≤ length page.old }
    ensures { Written 0 (from_sheet (view graph.now) verdict orders sheet.entry.numbers.now) page.old result page.new }
{
    let mut page = Page { bytes: page, at: 0 };
    let events = Column::of(graph.events().len());
    let writes = Column::of(writes_of(graph));
    match verdict {
        Verdict::Allowed => {
            let (lists, rest) = sheet.split_at(orders * events.number);
            let (placements, _) = rest.split_at(writes.number);
            let orders = Column::of(orders);
            page.line(b'A', orders, events, writes);
            page.lists(orders, events.number, lists);
            page.orders(graph.locations() as usize, placements);
            page.at
        }
        Verdict::Cycle { order, length } => {
            let (cycle, _) = sheet.split_at(length as usize);
            let order = Column::of(order as usize);
            page.line(b'X', order, Column::of(length as usize), events);
            page.list(b'C', order, cycle);
            page.at
        }
        Verdict::NoPlacement => {
            let open = Column::of(writes.number - graph.placed().len());
            page.line(b'N', open, events, writes);
            page.at
        }
    }
}

/// How many writes a graph has, initial ones and updates included.
fn writes_of(graph: &Graph) -> usize
    ensures counted { result ≡ all_writes (view graph.now) }
    ensures few { result ≤ 256 }
{
    graph
        .events()
        .iter()
        .filter(|event| event.label.writes())
        .count()
}
