//! What a sequence tells, and what adds to it.
ghost use Rattle.std.specs.Prelude.{◌≡◌, ◌≤◌, [], ◌∷◌, ◌++◌, length, if◌then◌else◌, is_ok, nat_lt, slice_set};
ghost use Rattle.std.specs.List.{insert};
ghost use Rattle.sequence.specs.Sequences.{items};

use super::{Full, Sequence};

#[tactic(auto, unfolding(crate::specs::Sequences::items))]
impl<T: Copy, const N: usize> Sequence<T, N> {
    /// The sequence with no item. The filler stands in the places that no item has taken yet.
    pub fn empty(filler: T) -> Sequence<T, N>
        ensures has_no_item { items result ≡ [] }
    {
        Sequence {
            places: [filler; N],
            len: 0,
        }
    }

    /// How many items there are.
    pub fn len(&self) -> usize
        ensures counts_the_items { result ≡ length (items self.now) }
    {
        self.as_slice().len()
    }

    /// The items in their order.
    pub fn as_slice(&self) -> &[T]
        ensures is_the_items_in_order { result.now ≡ items self.now }
        ensures no_more_than_fit { length result.now ≤ N }
    {
        &self.places[..self.len]
    }

    /// Puts an item at the end, unless the sequence is full.
    pub fn push(&mut self, item: T) -> Result<(), Full>
        ensures done_exactly_where_there_is_room { is_ok result ≡ nat_lt (length (items self.old)) N }
        ensures at_the_end_where_there_is_room { items self.new ≡ (if nat_lt (length (items self.old)) N then items self.old ++ item ∷ [] else items self.old) }
    {
        if self.len == N {
            return Err(Full);
        }
        self.places[self.len] = item;
        self.len += 1;
        Ok(())
    }

    /// Puts an item before the one at an index, or at the end where there is none, unless the sequence is full.
    pub fn insert(&mut self, at: usize, item: T) -> Result<(), Full>
        ensures done_exactly_where_there_is_room { is_ok result ≡ nat_lt (length (items self.old)) N }
        ensures at_the_index_where_there_is_room { items self.new ≡ (if nat_lt (length (items self.old)) N then insert (items self.old) at item else items self.old) }
    {
        self.push(item)?;
        if at < self.len {
            let places = &mut self.places[..];
            places[at..self.len].rotate_right(1);
        }
        Ok(())
    }

    /// Puts an item in place of the one at an index, if one is there.
    pub fn set(&mut self, at: usize, item: T)
        ensures in_place_of_the_one_there { items self.new ≡ slice_set (items self.old) at item }
    {
        if at < self.len {
            self.places[at] = item;
        }
    }
}
