//! A pile is a model again.
ghost use Rattle.std.specs.Prelude.{◌≡◌, false};
ghost use Rattle.model.specs.Meaning.{Over};
ghost use Rattle.model.specs.Layers.{Piles};
ghost use Rattle.boards.specs.Agreement.{Follows};
ghost use Rattle.boards.specs.Boards.{meaning_of, ConsistentUnder};
ghost use Rattle.boards.specs.OfBoard.{board_rules};
ghost use Rattle.piles.specs.Piles.{Alike, piled, below_strong};
ghost use Rattle.piles.specs.OfPile.{piled_rules};

use boards::Board;
use graph::Graph;
use model::{Barrier, Model as MemoryModel, Strong};
use relation::Relation;

/// The strong layer of a set of threads, over the barrier layer where that is asked for, over a board's model.
#[derive(Clone, Copy, PartialEq, Eq, Debug)]
pub struct Pile {
    pub board: Board,
    // A flag and a set, as a recording's header has them.
    pub barrier: bool,
    /// bit t - 1 for thread t
    pub strong: u16,
}

impl Pile {
    // The fields are open too, but only this call says what a pile stands over: the programs make theirs by it.
    pub fn new(board: Board, barrier: bool, strong: u16) -> Pile
        ensures holds_the_board { result.board ≡ board }
        ensures holds_the_barrier { result.barrier ≡ barrier }
        ensures holds_the_threads { result.strong ≡ strong }
        ensures stands_over_its_board { Over (piled result.strong result.barrier (meaning_of result.board)) (meaning_of board) }
        ensures stands_over_what_its_strong_layer_holds { Over (piled result.strong result.barrier (meaning_of result.board)) (below_strong barrier (meaning_of board)) }
        ensures of_no_thread_adds_no_pair_to_that { strong ≡ 0 → Alike (piled result.strong result.barrier (meaning_of result.board)) (below_strong barrier (meaning_of board)) }
        ensures of_no_layer_serves_exactly_what_the_textbook_calls_consistent { strong ≡ 0 → barrier ≡ false → Follows (piled result.strong result.barrier (meaning_of result.board)) (ConsistentUnder board) }
        ensures piles_to_any_height { Piles }
    {
        Pile {
            board,
            barrier,
            strong,
        }
    }
}

impl MemoryModel for Pile {
    ghost meaning = { λ p. piled p.strong p.barrier (meaning_of p.board) };

    ghost rules = { λ p. piled_rules p.strong p.barrier _ (board_rules p.board) };

    fn orders(&self) -> usize {
        self.board.orders()
    }

    fn lay(&self, graph: &Graph, order: usize, table: &mut Relation) {
        // One call a branch: the two piles differ in their type, and no heap holds either as one.
        if self.barrier {
            Strong::new(Barrier::new(self.board), self.strong).lay(graph, order, table);
        } else {
            Strong::new(self.board, self.strong).lay(graph, order, table);
        }
    }
}
