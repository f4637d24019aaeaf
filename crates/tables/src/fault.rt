//! What is wrong with a table.

ghost use Rattle.std.specs.Prelude.{◌≡◌, Some};
ghost use Rattle.tables.specs.Faults.{fault_number, fault_place, fault_text};

use std::error::Error;
use std::fmt;

/// Why a table is refused. The first fault in the order of the cases is told.
#[derive(Clone, Copy, Debug, PartialEq, Eq)]
pub enum TableFault {
    /// More than 16 acts.
    Acts,
    /// The start has a field over 63.
    Start,
    /// There are not 64 wanted levels, or one is over 64.
    Wanted,
    /// There are more than 32,768 rows.
    Rows,
    /// The first row, from 0, that has a wrong field, falls below the row before it, or is the ninth of its spot and act.
    Row(usize),
}

impl TableFault {
    /// The number of the fault: 7, and 8 for a row.
    pub fn number(self) -> u8
        ensures { result ≡ fault_number self }
    {
        match self {
            TableFault::Row(_) => 8,
            _ => 7,
        }
    }

    /// The place of the fault: which part of the table it is, or which row.
    pub fn place(self) -> usize
        ensures { result ≡ fault_place self }
    {
        match self {
            TableFault::Acts => 0,
            TableFault::Start => 1,
            TableFault::Wanted => 2,
            TableFault::Rows => 3,
            TableFault::Row(i) => i,
        }
    }
}

/// The fault in words, by its number and its place.
impl fmt::Display for TableFault {
    ghost output = { λ fault. Some (fault_text fault) };

    fn fmt<W: fmt::Write>(&self, f: &mut fmt::Formatter<W>) -> fmt::Result {
        let number = self.number();
        let place = self.place();
        write!(f, "stop {number} at place {place}")
    }
}

impl Error for TableFault {}
