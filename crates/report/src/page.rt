//! The page, written line by line.

ghost use Rattle.std.specs.Prelude.{◌≡◌, ◌+◌, ◌≤◌, length};
ghost use Rattle.report.specs.Pages.{report_line};
ghost use Rattle.report.specs.Texts.{Written};

use crate::column::Column;
use crate::line::report_line;

/// A page that takes every report, and how far it is written.
// Each method asks for the room that its own lines take: how many are still to come is known to the caller alone.
#[derive(Drop)]
pub(crate) struct Page<'a> {
    pub(crate) bytes: &'a mut [u8],
    // A place and no slice that shrinks: the caller is told how far the page is written.
    pub(crate) at: usize,
    ghost long: { 17934 ≤ length bytes.now },
}

impl Page<'_> {
    // The letter is a byte as it stands on the page: nothing is decided by it.
    pub(crate) fn line(&mut self, letter: u8, first: Column, second: Column, third: Column)
        requires room { self.old.at + 14 ≤ 17934 }
        ensures same_page { self.new.bytes.ghost_name ≡ self.old.bytes.ghost_name }
        ensures written { Written self.old.at (report_line letter first.number second.number third.number) self.old.bytes.now self.new.at self.new.bytes.now }
    {
        let line = report_line(letter, first, second, third);
        self.bytes[self.at..self.at + 14].copy_from_slice(&line);
        self.at += 14;
    }
}
