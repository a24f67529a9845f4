//! The header of a recording.

ghost use Rattle.std.specs.Prelude.{◌^◌, ◌<◌};

use boards::Board;
use event::Size;

pub mod reading;

/// What the H line says of a recording.
#[derive(Clone, Copy)]
pub struct Header {
    pub size: Size,
    // A set of threads and a flag, as the line has them.
    /// bit t - 1 for thread t
    pub strong: u16,
    pub barrier: bool,
    pub model: Board,
    ghost strong_within: { strong < 2 ^ size.threads },
}
