//! C11.
ghost use Rattle.std.specs.Prelude.{◌≡◌, ◌&&◌};
ghost use Rattle.event.specs.Labels.{mode_of};
ghost use Rattle.execution.specs.Content.{label_of};
ghost use Rattle.graph.specs.View.{view};
ghost use Rattle.relation.specs.Table.{Is};
ghost use Rattle.boards.specs.C11.{c11, c11_hb, releases, acquires};
ghost use Rattle.boards.specs.OfC11.{c11_rules};

use crate::synchronising::happens_before_by;
use event::Mode;
use graph::Graph;
use model::laying::{
    add_at_one_location, add_modification_order, add_reads_before, add_reads_from,
};
use model::{Model as MemoryModel, Synchronising};
use relation::Relation;

/// A releasing write synchronises with an acquiring read of it.
#[derive(Clone, Copy)]
pub struct C11;

impl MemoryModel for C11 {
    ghost meaning = { λ _. c11 };

    ghost rules = { λ _. c11_rules };

    fn orders(&self) -> usize {
        1
    }

    fn lay(&self, graph: &Graph, order: usize, table: &mut Relation) {
        *table = Relation::empty();
        if order == 0 {
            add_at_one_location(graph, &happens_before(graph), table);
            add_reads_from(graph, table);
            add_modification_order(graph, table);
            add_reads_before(graph, table);
        }
    }
}

impl Synchronising for C11 {
    ghost hb = { λ _. c11_hb };

    fn lay_happens_before(&self, graph: &Graph, table: &mut Relation) {
        *table = happens_before(graph);
    }
}

/// One or more steps of program order or synchronises-with.
fn happens_before(graph: &Graph) -> Relation
    ensures { Is result (c11_hb (view graph.now)) }
{
    happens_before_by(graph, |source, read| synchronizes(graph, source, read))
}

/// Whether the modes of a source and its read synchronise.
fn synchronizes(graph: &Graph, source: u8, read: u8) -> bool
    ensures { result ≡ (releases (mode_of (label_of (view graph.now) source)) && acquires (mode_of (label_of (view graph.now) read))) }
{
    let mode = |event: u8| graph.label(u32::from(event)).map(|label| label.mode());
    mode(source).is_some_and(releases) && mode(read).is_some_and(acquires)
}

fn releases(mode: Mode) -> bool
    ensures { result ≡ releases mode }
{
    matches!(mode, Mode::Release | Mode::AcquireRelease | Mode::SeqCst)
}

fn acquires(mode: Mode) -> bool
    ensures { result ≡ acquires mode }
{
    matches!(mode, Mode::Acquire | Mode::AcquireRelease | Mode::SeqCst)
}
