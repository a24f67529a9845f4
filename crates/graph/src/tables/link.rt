//! Linking a read to its source.

ghost use Rattle.std.specs.Prelude.{◌≡◌};
ghost use Rattle.execution.specs.Content.{source_of};
ghost use Rattle.execution.specs.Entries.{denial, step, link};
ghost use Rattle.event.specs.Denials.{refusal};
ghost use Rattle.graph.specs.View.{view};

use crate::tables::Graph;
use event::Denial;

impl Graph {
    /// The write that a read is linked to.
    fn source(&self, read: u32) -> Option<u8>
        ensures { result ≡ source_of (view self.now) read }
    {
        self.sources().get(read as usize).copied().flatten()
    }

    // Placing has like tests: each list is one order of denials, and is read as one.
    fn check_link(&self, read: u32, source: u32) -> Result<(), Denial>
        ensures first_test_that_fails { refusal result ≡ denial (view self.now) (link read source) }
    {
        let to = self.label(read).ok_or(Denial::Range(1))?;
        let from = self.label(source).ok_or(Denial::Range(2))?;
        if !to.reads() {
            return Err(Denial::Kind(1));
        }
        if !from.writes() {
            return Err(Denial::Kind(2));
        }
        if !from.shares_location(to) {
            return Err(Denial::Site);
        }
        if !from.writes_value_of(to) {
            return Err(Denial::Value);
        }
        if self.source(read).is_some() {
            return Err(Denial::Twice);
        }
        Ok(())
    }

    /// Gives a read its source.
    pub(crate) fn link(&mut self, read: u32, source: u32) -> Result<(), Denial>
        ensures denied_exactly_in_its_cases { refusal result ≡ denial (view self.old) (link read source) }
        ensures one_step { view self.new ≡ step (view self.old) (link read source) }
    {
        self.check_link(read, source)?;
        self.sources.set(read as usize, Some(source as u8));
        Ok(())
    }
}
