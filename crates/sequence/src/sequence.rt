//! A list that has room for so many items and never allocates.
ghost use Rattle.std.specs.Prelude.{◌≡◌, ◌≤◌, ⊤, length};

// What a sequence can do is told of its items, which are defined of this type: so that has a file of its own.
mod calls;

use std::alloc::AllocError;

/// At most `N` items, in the first `len` places. What lies past them is of no meaning.
/// It is `Copy`, which no vector of the library is, so that what holds one is a plain value too.
pub struct Sequence<T, const N: usize> {
    places: [T; N],
    len: usize,
    ghost sized: { length places ≡ N },
    ghost bounded: { len ≤ N },
}

/// No further item fits.
#[derive(Clone, Copy, PartialEq, Eq, Debug)]
pub struct Full;

// A derive is refused where a generic type has ghost fields.
impl<T: Copy, const N: usize> Clone for Sequence<T, N> {
    ghost is_clone = { λ x y. y ≡ x };

    ghost is_infallible = { λ _. ⊤ };

    fn clone(&self) -> Result<Self, AllocError> {
        Ok(*self)
    }
}

impl<T: Copy, const N: usize> Copy for Sequence<T, N> {}
