//! Placing a write in its location's modification order.

ghost use Rattle.std.specs.Prelude.{◌≡◌, false, IfOk, MatchOption};
ghost use Rattle.execution.specs.Lists.{holds, FirstAt};
ghost use Rattle.execution.specs.Entries.{denial, step, place};
ghost use Rattle.event.specs.Denials.{refusal};
ghost use Rattle.graph.specs.View.{view};

use crate::tables::Graph;
use event::Denial;

/// Where a write first stands among the placed ones.
pub(crate) fn place_of(placed: &[u8], write: u32) -> Option<usize>
    ensures first_place_or_none { MatchOption result (holds placed.now write ≡ false) (λ i. FirstAt placed.now write i) }
{
    placed.iter().position(|placed| u32::from(*placed) == write)
}

impl Graph {
    /// Where the write to follow stands, if nothing denies the placement.
    fn place_to_follow(&self, write: u32, after: u32) -> Result<usize, Denial>
        ensures first_test_that_fails { refusal result ≡ denial (view self.now) (place write after) }
        ensures its_first_place { IfOk result (λ i. FirstAt (view self.now).placed after i) }
    {
        let new = self.label(write).ok_or(Denial::Range(1))?;
        let old = self.label(after).ok_or(Denial::Range(2))?;
        if !new.writes() {
            return Err(Denial::Kind(1));
        }
        if !old.writes() {
            return Err(Denial::Kind(2));
        }
        if !old.shares_location(new) {
            return Err(Denial::Site);
        }
        if place_of(self.placed(), write).is_some() {
            return Err(Denial::Twice);
        }
        place_of(self.placed(), after).ok_or(Denial::Loose)
    }

    /// Puts a write directly after a placed one. A graph that is tried out is a copy, so this is no entry.
    pub fn place(&mut self, write: u32, after: u32) -> Result<(), Denial>
        ensures denied_exactly_in_its_cases { refusal result ≡ denial (view self.old) (place write after) }
        ensures one_step { view self.new ≡ step (view self.old) (place write after) }
    {
        let at = self.place_to_follow(write, after)?;
        self.placed.insert(at + 1, write as u8).unwrap();
        Ok(())
    }
}
