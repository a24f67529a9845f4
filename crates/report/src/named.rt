//! The pile that an H line names.

ghost use Rattle.std.specs.Prelude.{◌≡◌};

use piles::Pile;
use recording::Header;

/// The strong layer over the barrier layer, where that is asked for, over the model.
// No `From`: neither type is of this crate.
pub(crate) fn pile_of(header: Header) -> Pile
    ensures its_board { result.board ≡ header.model }
    ensures its_barrier { result.barrier ≡ header.barrier }
    ensures its_threads { result.strong ≡ header.strong }
{
    Pile::new(header.model, header.barrier, header.strong)
}
