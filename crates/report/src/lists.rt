//! Lists of events, a line for each.

ghost use Rattle.std.specs.Prelude.{◌≡◌, ◌+◌, ◌*◌, ◌≤◌, length};
ghost use Rattle.report.specs.Flat.{cut, orders_from};
ghost use Rattle.report.specs.Reports.{lines_from, lists_from};
ghost use Rattle.report.specs.Texts.{Written};

use crate::column::Column;
use crate::page::Page;
use crate::row::Row;

impl Page<'_> {
    /// A line for each event of a list, with the list's number and its position.
    pub(crate) fn list(&mut self, letter: u8, number: Column, events: Row)
        requires room { self.old.at + 14 * length events.numbers.now ≤ 17934 }
        ensures same_page { self.new.bytes.ghost_name ≡ self.old.bytes.ghost_name }
        ensures written { Written self.old.at (lines_from letter number.number 0 events.entry.numbers.now) self.old.bytes.now self.new.at self.new.bytes.now }
    {
        for (position, event) in events.numbers.iter().enumerate() {
            let event = Column::of(usize::from(*event));
            self.line(letter, number, Column::of(position), event);
        }
    }

    /// The list of each order, which stand in a row one after the other.
    pub(crate) fn lists(&mut self, orders: Column, events: usize, row: Row)
        requires there { orders.number * events ≤ length row.numbers.now }
        requires room { self.old.at + 14 * (orders.number * events) ≤ 17934 }
        ensures same_page { self.new.bytes.ghost_name ≡ self.old.bytes.ghost_name }
        ensures written { Written self.old.at (lists_from 79 0 (cut orders.number events row.entry.numbers.now)) self.old.bytes.now self.new.at self.new.bytes.now }
    {
        let mut rest = row;
        // No `chunks_exact`: it hands out plain slices, and a list is to be a `Row` again, as `split_at` gives it.
        for order in 0..orders.number {
            let (list, after) = rest.split_at(events);
            self.list(b'O', Column::of(order), list);
            rest = after;
        }
    }

    /// The modification orders, which stand in a row one after the other.
    /// The initial writes have the lowest numbers, and each begins the order of its location.
    pub(crate) fn orders(&mut self, locations: usize, writes: Row)
        requires room { self.old.at + 14 * length writes.numbers.now ≤ 17934 }
        ensures same_page { self.new.bytes.ghost_name ≡ self.old.bytes.ghost_name }
        ensures written { Written self.old.at (orders_from locations 0 0 writes.entry.numbers.now) self.old.bytes.now self.new.at self.new.bytes.now }
    {
        let mut location = Column::of(0);
        // No `enumerate`: the position starts again with each location.
        let mut position = 0;
        for write in writes.numbers {
            let event = Column::of(usize::from(*write));
            if event.number < locations {
                location = event;
                position = 0;
            }
            self.line(b'M', location, Column::of(position), event);
            position += 1;
        }
    }
}
