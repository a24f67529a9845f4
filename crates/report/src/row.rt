//! Numbers that the page lists.

ghost use Rattle.std.specs.Prelude.{◌≡◌, ◌+◌, ◌≤◌, length, take, drop, slice_index, EachIndex};

/// Numbers of a sheet that each fit four columns, and are few enough to be counted in four.
#[derive(Clone, Copy)]
pub(crate) struct Row<'a> {
    pub(crate) numbers: &'a [u16],
    ghost few: { length numbers.now ≤ 9999 },
    ghost fits: { EachIndex numbers.now (λ k. slice_index numbers.now k ≤ 9999) },
}

impl<'a> Row<'a> {
    pub(crate) fn split_at(self, count: usize) -> (Row<'a>, Row<'a>)
        requires { count ≤ length self.numbers.now }
        ensures front { result.0.numbers.now ≡ take count self.entry.numbers.now }
        ensures back { result.1.numbers.now ≡ drop count self.entry.numbers.now }
        ensures front_len { length result.0.numbers.now ≡ count }
        ensures back_len { length result.1.numbers.now + count ≡ length self.entry.numbers.now }
    {
        let (front, back) = self.numbers.split_at(count);
        (Row { numbers: front }, Row { numbers: back })
    }
}
