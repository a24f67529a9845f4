//! What the programs that time something share: how often they do their work, and the least time that it took.
#![tactic(auto)]

ghost use Rattle.std.specs.Prelude.{IfOk};
ghost use Rattle.std.specs.List.{FoldsTo, range_with_len};

use std::time::{Clock, Duration, Instant};
use std::{env, io};

/// The number of rounds: the first of the program's arguments that is a number, or one where none is.
pub fn rounds(rt: &HostRuntime) -> io::Result<u32> {
    let mut words = env::args(rt)?.skip(1);
    Ok(
        words
            .find_map(|word| word.as_str().parse().ok())
            .unwrap_or(1),
    )
}

/// The least time that a round of the work took. The work is told the round's number, from 0 on.
pub fn least<W: FnMut(u32)>(clock: &impl Clock, rounds: u32, mut work: W) -> io::Result<Duration>
    requires { W.IsAlwaysCallable work }
    ensures each_round_was_worked_in_turn { IfOk result (λ _. (last : W) × FoldsTo (λ p x q. W.step p x tt q) work (range_with_len 0 rounds) last) }
{
    let mut least = Duration::MAX;
    for round in 0..rounds {
        let start = Instant::now(clock)?;
        work(round);
        least = least.min(start.elapsed(clock)?);
    }
    Ok(least)
}
