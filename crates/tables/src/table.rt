//! The table and what it answers as a book.

ghost use Rattle.std.specs.Prelude.{◌≡◌, is_ok, IfOk, Decides};
ghost use Rattle.tables.specs.Tables.{WellMade, table_answer, table_of};

use crate::checking::{MOST_ACTS, MOST_OUTCOMES, check};
use crate::fault::TableFault;
use crate::looking::first_row;
use crate::row::{Key, TableRow};
use crate::spot::Spot;
use planning::Book;

/// A book of moves between spots, over lists that its maker lends.
#[derive(Clone, Copy)]
pub struct MoveTable<'a> {
    acts: u8,
    start: Spot,
    wanted: &'a [u8],
    rows: &'a [TableRow],
}

impl<'a> MoveTable<'a> {
    ghost use Rattle.tables.specs.Books.{Faithful, held, told};

    /// A table with that many acts, that start, the level wanted in each of the 64 zones, and those rows.
    ///
    /// Refused with the first fault, in the order of the cases of `TableFault`. Whatever is accepted answers for each
    /// spot and act with all its rows, in their order, and finds them by halving.
    pub fn new(
        acts: u8,
        start: Spot,
        wanted: &'a [u8],
        rows: &'a [TableRow],
    ) -> Result<MoveTable<'a>, TableFault>
        ensures answer { told result ≡ table_answer (table_of acts start wanted.now rows.now) }
        ensures accepted { Decides (is_ok result) (WellMade (table_of acts start wanted.now rows.now)) }
        ensures faithful { IfOk result (λ t. Faithful (held t)) }
    {
        check(acts, start, wanted, rows)?;
        Ok(MoveTable {
            acts,
            start,
            wanted,
            rows,
        })
    }
}

/// What the table answers of spots.
impl Book for MoveTable<'_> {
    ghost use Rattle.tables.specs.Books.{held, table_meaning};
    ghost use Rattle.tables.specs.Laws.{table_lawful};

    type State = Spot;

    ghost meaning = { λ t. table_meaning (held t) };

    ghost lawful = { λ t. table_lawful (held t) };

    fn start(&self) -> Spot {
        self.start
    }

    fn acts(&self) -> u8 {
        self.acts.min(MOST_ACTS)
    }

    #[tactic(auto, using(crate::proofs::Seeking::first_bound))]
    fn outcome(&self, s: Spot, act: u8, number: u8) -> Option<Spot> {
        if !s.within() || act >= self.acts() || number >= MOST_OUTCOMES {
            return None;
        }
        let key = Key { from: s, act };
        self.rows[first_row(self.rows, key)..]
            .iter()
            .take_while(|row| row.key() == key)
            .nth(usize::from(number))
            .map(|row| row.to)
    }

    fn goal(&self, s: Spot) -> bool {
        s.within()
            && self
                .wanted
                .get(usize::from(s.zone))
                .is_some_and(|level| *level <= s.level)
    }

    fn same(&self, s: Spot, t: Spot) -> bool {
        s == t
    }
}
