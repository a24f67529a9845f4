//! The choice of a model by its number.
ghost use Rattle.boards.specs.Boards.{Chooses, meaning_of};
ghost use Rattle.boards.specs.OfBoard.{board_rules};

use crate::c11::C11;
use crate::coh::Coh;
use crate::ra::Ra;
use crate::sc::Sc;
use crate::tso::Tso;
use event::Denial;
use graph::Graph;
use model::Model as MemoryModel;
use relation::Relation;

/// One of the five models.
#[derive(Clone, Copy, PartialEq, Eq, Debug)]
pub enum Board {
    Coh,
    C11,
    Ra,
    Tso,
    Sc,
}

/// The model of a number from 0 to 4.
impl TryFrom<u32> for Board {
    type Error = Denial;

    ghost try_from_gives = { Chooses };

    fn try_from(n: u32) -> Result<Board, Denial> {
        match n {
            0 => Ok(Board::Coh),
            1 => Ok(Board::C11),
            2 => Ok(Board::Ra),
            3 => Ok(Board::Tso),
            4 => Ok(Board::Sc),
            _ => Err(Denial::Range(1)),
        }
    }
}

// A match in each method and no table of models: a model is chosen by a value here, and no function may hand out a `dyn`.
impl MemoryModel for Board {
    ghost meaning = { meaning_of };

    ghost rules = { board_rules };

    fn orders(&self) -> usize {
        match self {
            Board::Coh => Coh.orders(),
            Board::C11 => C11.orders(),
            Board::Ra => Ra.orders(),
            Board::Tso => Tso.orders(),
            Board::Sc => Sc.orders(),
        }
    }

    fn lay(&self, graph: &Graph, order: usize, table: &mut Relation) {
        match self {
            Board::Coh => Coh.lay(graph, order, table),
            Board::C11 => C11.lay(graph, order, table),
            Board::Ra => Ra.lay(graph, order, table),
            Board::Tso => Tso.lay(graph, order, table),
            Board::Sc => Sc.lay(graph, order, table),
        }
    }
}
