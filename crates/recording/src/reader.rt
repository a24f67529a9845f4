//! The reader of a file.

ghost use Rattle.std.specs.Prelude.{◌≤◌, length};

pub mod entries;
pub mod lines;

/// Stands over a file's bytes and hands out its lines as parts of them.
#[derive(Drop)]
pub struct Reader<'a> {
    bytes: &'a [u8],
    /// where the next line begins
    place: usize,
    /// the number of the line handed out last, 0 before the first
    line: usize,
    ghost inside: { place ≤ length bytes.now },
    ghost counted: { line ≤ place },
}
