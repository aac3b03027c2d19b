//! The tables, by their names.

use crate::fault::Fault;
use crate::{bytes, input, lease, lines, sheet, words};
use crsm_base::Bytes;
use std::alloc::Global;

/// A table, which says what its rows are read as.
#[derive(Clone, Copy, Debug)]
pub enum Table {
    /// Lines of schedules.
    Lines,
    /// Lines of sheets.
    Sheet,
    /// Command lines.
    Words,
    /// Actions about a lock.
    Lease,
    /// Inputs that a handler adds up.
    Input,
    /// Bytes of the kinds that are written on a disk or sent.
    Bytes,
}

impl Table {
    /// Returns the table that a heading names, if there is one.
    pub fn named(name: &str) -> Option<Table> {
        match name {
            "lines" => Some(Table::Lines),
            "sheet" => Some(Table::Sheet),
            "words" => Some(Table::Words),
            "lease" => Some(Table::Lease),
            "input" => Some(Table::Input),
            "bytes" => Some(Table::Bytes),
            _ => None,
        }
    }

    /// Appends what a row is read as, with its line feed. After a fault the first lines of the answer may have been
    /// added.
    pub(crate) fn tell(self, alloc: Global, row: &str, out: &mut Bytes) -> Result<(), Fault> {
        match self {
            Table::Lines => lines::tell(alloc, row, out),
            Table::Sheet => sheet::tell(alloc, row, out),
            Table::Words => words::tell(alloc, row, out),
            Table::Lease => lease::tell(alloc, row, out),
            Table::Input => input::tell(alloc, row, out),
            Table::Bytes => bytes::tell(alloc, row, out),
        }
    }
}
