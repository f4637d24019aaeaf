//! Rows: the moves of a table.

ghost use Rattle.std.specs.Prelude.{◌≡◌};
ghost use Rattle.tables.specs.Rows.{fits};

use crate::spot::Spot;

/// A move: the act may lead from the one spot to the other.
///
/// Several rows of one spot and act are its outcomes, in the order of the rows.
#[derive(Clone, Copy, Debug, PartialEq, Eq)]
pub struct TableRow {
    /// The spot in which the act is done.
    pub from: Spot,
    /// The act.
    pub act: u8,
    /// Where it may lead.
    pub to: Spot,
}

impl TableRow {
    // Whether both spots have fields of at most 63 and the act is below `acts`.
    pub(crate) fn fits(self, acts: u8) -> bool
        ensures { result ≡ fits acts self }
    {
        self.from.within() && self.to.within() && self.act < acts
    }

    // What the row is looked up by.
    pub(crate) fn key(self) -> Key
        ensures { result ≡ record { from = self.from; act = self.act } }
    {
        Key {
            from: self.from,
            act: self.act,
        }
    }
}

// A spot and an act, by which rows are in order.
#[derive(Clone, Copy, PartialEq, Eq, PartialOrd, Ord)]
pub(crate) struct Key {
    pub(crate) from: Spot,
    pub(crate) act: u8,
}
