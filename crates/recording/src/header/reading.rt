//! A header out of the numbers of the H line.

ghost use Rattle.std.specs.Prelude.{◌≡◌, Some, None, MatchResult};
ghost use Rattle.recording.specs.Headings.{heading, heading_denial, heading_of};

use crate::header::Header;
use boards::Board;
use event::{Denial, Size};

impl Header {
    // No `TryFrom`: it would be public, and the five numbers are the crate's own.
    pub(crate) fn of(fields: [u32; 5]) -> Result<Header, Denial>
        ensures { MatchResult result (λ h. (heading_denial (heading fields) ≡ None) × (heading_of h ≡ heading fields)) (λ d. heading_denial (heading fields) ≡ Some d) }
    {
        let [threads, locations, strong, barrier, model] = fields;
        let size = Size::new(threads, locations)?;
        if strong >= 1 << size.threads() {
            return Err(Denial::Range(3));
        }
        if barrier > 1 {
            return Err(Denial::Range(4));
        }
        let model = Board::try_from(model).map_err(|_| Denial::Range(5))?;
        Ok(Header {
            size,
            strong: strong as u16,
            barrier: barrier == 1,
            model,
        })
    }
}
