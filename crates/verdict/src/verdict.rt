//! The verdict of a judge.
ghost use Rattle.std.specs.Prelude.{Some};
ghost use Rattle.verdict.specs.Line.{line};

use std::fmt;

/// What a judge finds.
#[derive(Clone, Copy, PartialEq, Eq, Debug)]
pub enum Verdict {
    /// Some full modification order serves; the sheet shows the first.
    Allowed,
    /// The placements give this order a cycle of this length, and no lower order one; the sheet shows it.
    Cycle { order: u8, length: u16 },
    /// No order has a cycle as the placements stand, and no full modification order serves.
    NoPlacement,
}

impl fmt::Display for Verdict {
    ghost output = { λ v. Some (line v) };

    fn fmt<W: fmt::Write>(&self, f: &mut fmt::Formatter<W>) -> fmt::Result {
        match self {
            Verdict::Allowed => f.write_str("allowed"),
            Verdict::Cycle { order, length } => write!(
                f,
                "forbidden: order {order} has a cycle of {length} events"
            ),
            Verdict::NoPlacement => f.write_str("forbidden at every placement"),
        }
    }
}
