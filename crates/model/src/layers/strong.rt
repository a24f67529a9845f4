//! The strong layer: given threads keep all of their program order.
ghost use Rattle.std.specs.Prelude.{◌≡◌, ◌||◌};
ghost use Rattle.graph.specs.View.{view};
ghost use Rattle.relation.specs.Table.{holds, Is};
ghost use Rattle.model.specs.Meaning.{Over};
ghost use Rattle.model.specs.Layers.{has_thread, within_threads, strong, Piles};
ghost use Rattle.model.specs.Layered.{layer_rules, within_threads_grows};

use crate::interface::Model as MemoryModel;
use crate::laying::program_order::add_thread_order;
use graph::Graph;
use relation::Relation;

/// A model with program order inside each of the given threads in every order: thread t is digit t - 1 of `threads`.
#[derive(Clone, Copy)]
pub struct Strong<M> {
    below: M,
    threads: u16,
}

impl<M: MemoryModel> Strong<M> {
    pub fn new(below: M, threads: u16) -> Strong<M>
        ensures holds_the_model_below { result.below ≡ below }
        ensures holds_the_set { result.threads ≡ threads }
        ensures stands_over_the_model_below { Over (strong result.threads (M.Model.meaning result.below)) (M.Model.meaning below) }
        ensures piles_to_any_height { Piles }
    {
        Strong { below, threads }
    }
}

impl<M: MemoryModel> MemoryModel for Strong<M> {
    ghost meaning = { λ m. strong m.threads (M.Model.meaning m.below) };

    ghost rules = { λ m. layer_rules (within_threads m.threads) _ (within_threads_grows m.threads) (M.Model.rules m.below) };

    fn orders(&self) -> usize {
        self.below.orders()
    }

    fn lay(&self, graph: &Graph, order: usize, table: &mut Relation) {
        self.below.lay(graph, order, table);
        if order < self.orders() {
            add_within_threads(graph, self.threads, table);
        }
    }
}

/// Adds program order inside each of the threads.
fn add_within_threads(graph: &Graph, threads: u16, table: &mut Relation)
    ensures { Is table.new (λ a b. within_threads threads (view graph.now) a b || holds table.old a b) }
{
    // Piles without strong threads pay for no table here.
    if threads == 0 {
        return;
    }
    let mut order = Relation::empty();
    add_thread_order(graph, &mut order);
    for (a, event) in graph.events().iter().enumerate() {
        if has_thread(threads, event.thread) {
            table.join_row(a as u8, &order.row(a as u8));
        }
    }
}

fn has_thread(threads: u16, thread: u8) -> bool
    ensures { result ≡ has_thread threads thread }
{
    match thread {
        1..=16 => (threads >> (thread - 1)) & 1 == 1,
        _ => false,
    }
}
