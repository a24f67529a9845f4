//! What the lines say: the header, and the entries of a graph.

ghost use Rattle.std.specs.Prelude.{◌≡◌, ◌+◌, drop};
ghost use Rattle.graph.specs.View.{of_open};
ghost use Rattle.recording.specs.Meaning.{taking};
ghost use Rattle.recording.specs.Headings.{Heading};
ghost use Rattle.recording.specs.Left.{left, ahead};
ghost use Rattle.recording.specs.Lines.{lines};
ghost use Rattle.recording.specs.Answers.{Opens, Fills, Takes};
ghost use Rattle.recording.specs.OneLine.{Heads, Enters, Applies};

use crate::fault::{Denied, Fault};
use crate::header::Header;
use crate::layout::LineKind;
use crate::line::Line;
use crate::reader::Reader;
use event::{Arguments, Denial};
use graph::Open;

/// The most lines that a file may have.
const LINES: usize = 1024;

impl<'a> Reader<'a> {
    /// Reads the next line as the H line.
    pub fn header(&mut self) -> Result<Header, Fault>
        ensures opens_what_is_left_or_tells_its_fault { Opens self.old self.new result }
        ensures takes_one_line { lines (left self.new) ≡ drop 1 (lines (left self.old)) }
    {
        let Some(line) = self.next_line() else {
            return Err(Fault::from(self.end_missing()));
        };
        let number = self.line;
        let header = header_line(number, line).map_err(|denial| Denied {
            line: number,
            denial,
        })?;
        Ok(header)
    }

    /// Enters the lines that are left into the graph, up to the file's end or its first fault.
    pub fn fill(&mut self, graph: &mut Open) -> Result<(), Fault>
        ensures the_lines_before_the_first_fault_stand { (h : Heading) → Fills (ahead self.old (taking h (of_open graph.old))) h (of_open graph.new) result }
        ensures takes_the_lines_up_to_the_fault { Takes self.old self.new result }
    {
        let mut ended = false;
        // No `for`: in each turn the reader is asked for the line's number.
        while let Some(line) = self.next_line() {
            let number = self.line;
            ended = enter(number, line, ended, graph).map_err(|denial| Denied {
                line: number,
                denial,
            })?;
        }
        if !ended {
            return Err(Fault::from(self.end_missing()));
        }
        Ok(())
    }

    /// The denial of a file that lacks the line after the last one read.
    fn end_missing(&self) -> Denied
        ensures { result ≡ record { line = self.now.line + 1; denial = Denial.Frame } }
    {
        Denied {
            line: self.line + 1,
            denial: Denial::Frame,
        }
    }
}

// Begins much as `enter` does; the test of the kind is the opposite one.
fn header_line(number: usize, line: &[u8]) -> Result<Header, Denial>
    ensures { Heads number line.now result }
{
    let line = Line::of(line)?;
    if number > LINES {
        return Err(Denial::Frame);
    }
    let LineKind::Header = line.kind else {
        return Err(Denial::Frame);
    };
    Header::of(line.fields()?)
}

/// Enters a line after the H line, and says whether the file ends with it. The answer is the next `ended`: a `bool`, since an
/// enum of two cases would be turned back into the test on `ended` at each use.
fn enter(number: usize, line: &[u8], ended: bool, graph: &mut Open) -> Result<bool, Denial>
    ensures { Enters number ended line.now (of_open graph.old) (of_open graph.new) result }
{
    let line = Line::of(line)?;
    if number > LINES || ended {
        return Err(Denial::Frame);
    }
    if let LineKind::Header = line.kind {
        return Err(Denial::Frame);
    }
    apply(line.kind, line.fields()?, graph)
}

fn apply(kind: LineKind, fields: [u32; 5], graph: &mut Open) -> Result<bool, Denial>
    ensures { Applies kind fields (of_open graph.old) (of_open graph.new) result }
{
    match kind {
        LineKind::Event(kind) => {
            graph.record(kind, Arguments::from(fields))?;
            Ok(false)
        }
        LineKind::Link => {
            let [read, source, ..] = fields;
            graph.link(read, source)?;
            Ok(false)
        }
        LineKind::Place => {
            let [write, after, ..] = fields;
            graph.place(write, after)?;
            Ok(false)
        }
        LineKind::Header | LineKind::End => Ok(true),
    }
}
