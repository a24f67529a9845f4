//! Lines, one by one.

ghost use Rattle.std.specs.Prelude.{◌≡◌, ◌+◌, [], ◌∷◌, MatchOption};
ghost use Rattle.recording.specs.Lines.{lines};
ghost use Rattle.recording.specs.Left.{left};

use crate::reader::Reader;

impl<'a> Reader<'a> {
    pub fn new(bytes: &'a [u8]) -> Reader<'a>
        ensures everything_is_left { left result ≡ bytes.now }
        ensures no_line_is_counted { result.line ≡ 0 }
    {
        Reader {
            bytes,
            place: 0,
            line: 0,
        }
    }

    /// The next line, with the newline that ends it, which the last one may lack.
    // No `Iterator`: whoever reads on also asks the reader for the line's number.
    pub fn next_line(&mut self) -> Option<&'a [u8]>
        ensures the_first_line_of_what_is_left { MatchOption result (lines (left self.old) ≡ []) (λ l. lines (left self.old) ≡ l.now ∷ lines (left self.new)) }
        ensures a_line_is_counted_or_nothing_changes { MatchOption result (self.new ≡ self.old) (λ _. self.new.line ≡ self.old.line + 1) }
    {
        let rest = &self.bytes[self.place..];
        let line = rest.split_inclusive(|byte| *byte == b'\n').next()?;
        self.place += line.len();
        self.line += 1;
        Some(line)
    }
}
