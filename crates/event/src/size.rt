//! Sizes: the numbers of threads and locations that a graph may have.

ghost use Rattle.std.specs.Prelude.{◌≡◌, ◌≤◌, cond, Some, None, Ok, Err, MatchResult};
ghost use Rattle.event.specs.declared.denial.Denial.TheVariants.{Range};
ghost use Rattle.event.specs.Sizes.{one_to_sixteen, size_denial};

use crate::denial::Denial;

/// How many threads and locations a graph has: 1 to 16 of each.
#[derive(Clone, Copy)]
pub struct Size {
    threads: u8,
    locations: u8,
    ghost some_threads: { 1 ≤ threads },
    ghost few_threads: { threads ≤ 16 },
    ghost some_locations: { 1 ≤ locations },
    ghost few_locations: { locations ≤ 16 },
}

impl Size {
    pub fn new(threads: u32, locations: u32) -> Result<Size, Denial>
        ensures that_size_or_the_first_out_of_range { MatchResult result (λ s. (size_denial threads locations ≡ None) × (s.threads ≡ threads) × (s.locations ≡ locations)) (λ d. size_denial threads locations ≡ Some d) }
    {
        Ok(Size {
            threads: one_to_sixteen(threads, 1)?,
            locations: one_to_sixteen(locations, 2)?,
        })
    }

    pub fn threads(self) -> u8
        ensures its_threads { result ≡ self.threads }
    {
        self.threads
    }

    pub fn locations(self) -> u8
        ensures its_locations { result ≡ self.locations }
    {
        self.locations
    }
}

/// The number where it is in range, and else the denial of its position.
fn one_to_sixteen(number: u32, position: u8) -> Result<u8, Denial>
    ensures { result ≡ cond (one_to_sixteen number) (Ok number) (Err (Range position)) }
{
    match u8::try_from(number) {
        Ok(few @ 1..=16) => Ok(few),
        _ => Err(Denial::Range(position)),
    }
}
