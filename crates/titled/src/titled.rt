//! One recording after the other.
ghost use Rattle.std.specs.Prelude.{◌≡◌, length, MatchOption};
ghost use Rattle.std.specs.Iterator.{at_most};
ghost use Rattle.titled.specs.Titles.{Cut};

use crate::cutting::{line_end, next_title};

/// A recording behind its title line.
#[derive(Clone, Copy)]
pub struct Titled<'a> {
    pub title: &'a [u8],
    pub recording: &'a [u8],
}

/// The recordings of a file, each behind a title line that begins with '#'.
#[derive(Clone, Copy)]
pub struct Recordings<'a> {
    rest: &'a [u8],
}

impl<'a> Recordings<'a> {
    // No `From`: this begins a walk.
    pub fn of(file: &'a [u8]) -> Recordings<'a>
        ensures the_whole_file_is_left { result.rest.now ≡ file.now }
    {
        Recordings { rest: file }
    }
}

impl<'a> Iterator for Recordings<'a> {
    type Item = Titled<'a>;

    ghost next_gives = { λ s r t. MatchOption r (length s.rest.now ≡ 0) (λ x. Cut s.rest.now x.title.now x.recording.now t.rest.now) };

    ghost remaining = { λ s. at_most (length s.rest.now) };

    fn next(&mut self) -> Option<Titled<'a>> {
        let file = self.rest;
        if file.is_empty() {
            return None;
        }
        let (first, rest) = file.split_at(next_title(file));
        let (title, recording) = first.split_at(line_end(first));
        self.rest = rest;
        Some(Titled { title, recording })
    }
}
