//! Where a file is at fault and why.

ghost use Rattle.std.specs.Prelude.{◌≡◌};
ghost use Rattle.recording.specs.Faults.{fault};

use crate::layout::column;
use event::Denial;

/// A denial and the line that it is on.
#[derive(Clone, Copy)]
pub struct Denied {
    pub line: usize,
    pub denial: Denial,
}

/// Where a file is at fault and why. The column is the first of the field at fault, and 0 where no field is.
#[derive(Clone, Copy, PartialEq, Eq, Debug)]
pub struct Fault {
    pub line: usize,
    // 0 and no `Option`: the line that tells the fault has a number there.
    pub column: u8,
    pub denial: Denial,
}

impl From<Denied> for Fault {
    ghost from_gives = { λ d f. f ≡ fault d.line d.denial };

    fn from(denied: Denied) -> Fault {
        let column = column(denied.denial.position());
        Fault {
            line: denied.line,
            column,
            denial: denied.denial,
        }
    }
}
