//! A sweep: one visit of each place, which gives its state the sweep's rank if lower ranks allow it.

ghost use Rattle.std.specs.Prelude.{◌≡◌, ◌≤◌};
ghost use Rattle.std.specs.List.{slice_get};
ghost use Rattle.planning.specs.Ranks.{brings};
ghost use Rattle.session.specs.Judging.{choice, has_rank, standing_by, told, visited};
ghost use Rattle.session.specs.Units.{Moves, outlook};
ghost use Rattle.session.specs.Views.{SameLists, view};

use crate::lists::Session;
use crate::plain::{Progress, Row, Standing};
use planning::{Book, Outcomes};

// Whether some row has rank j.
fn some_rank(rows: &[Row], j: u16) -> bool
    ensures { result ≡ has_rank j rows.now }
{
    rows.iter().any(|row| row.rank == Some(j))
}

impl<'a, S: Copy> Session<'a, S> {
    // Whether s is listed with a rank below j.
    fn below<B: Book<State = S>>(&self, book: &B, s: S, j: u16) -> bool
        ensures { result ≡ told (B.meaning book.now) (view self.now) j s }
    {
        self.row_of(book, s)
            .and_then(|row| row.rank)
            .is_some_and(|rank| rank < j)
    }

    // Whether the act is applicable in s and has only outcomes of rank below j.
    fn allows<B: Book<State = S>>(&self, book: &B, s: S, act: u8, j: u16) -> bool
        ensures { result ≡ brings (B.meaning book.now) (told (B.meaning book.now) (view self.now) j) s act }
    {
        let mut outcomes = Outcomes::new(book, s, act);
        let Some(first) = outcomes.next() else {
            return false;
        };
        self.below(book, first, j) && outcomes.all(|o| self.below(book, o, j))
    }

    // The lowest act that brings s to ranks below j.
    fn judge<B: Book<State = S>>(&self, book: &B, s: S, j: u16) -> Option<u8>
        ensures { result ≡ choice (B.meaning book.now) (view self.now) j s }
    {
        (0..book.acts()).find(|act| self.allows(book, s, *act, j))
    }

    // Gives place i the rank j if its row is blank and ranks below j allow it.
    fn visit<B: Book<State = S>>(&mut self, book: &B, i: usize, j: u16)
        ensures states { self.new.states.now ≡ self.old.states.now }
        ensures rows { self.new.rows.now ≡ visited (B.meaning book.now) (view self.old) i j }
        ensures plain { self.new.«record» ≡ self.old.«record» }
        ensures lent { SameLists self.old self.new }
    {
        let (Some(s), Some(row)) = (self.state(i), self.row(i)) else {
            return;
        };
        if row.rank.is_some() {
            return;
        }
        if let Some(act) = self.judge(book, s, j) {
            self.rows[i] = Row {
                rank: Some(j),
                act: Some(act),
            };
        }
    }

    // What the row of place 0 says.
    fn verdict(&self) -> Standing
        ensures { result ≡ standing_by (slice_get self.now.rows.now 0) }
    {
        self.row(0)
            .and_then(|row| row.rank)
            .map_or(Standing::NoPlan, Standing::Found)
    }

    // Where the search stands after a visit in sweep j: the first sweep that ranks nothing is the last.
    fn outlook(&self, j: u16, ends: bool) -> Standing
        ensures { result ≡ outlook (view self.now) j ends }
    {
        if !ends || some_rank(self.rows(), j) {
            Standing::Working
        } else {
            self.verdict()
        }
    }

    // A unit that visits a place.
    pub(crate) fn visit_place<B: Book<State = S>>(&mut self, book: &B)
        ensures moves { Moves (B.meaning book.now) (self.old.«record».listed ≤ self.old.«record».progress.units) (view self.old) (view self.new) }
        ensures lent { SameLists self.old self.new }
    {
        let units = self.record.progress.units;
        let r = u32::from(self.record.listed);
        if r == 0 || units == u32::MAX {
            return;
        }
        let Ok(j) = u16::try_from(units / r) else {
            return;
        };
        let ends = (units + 1) % r == 0;
        self.visit(book, (units % r) as usize, j);
        let standing = self.outlook(j, ends);
        self.record.progress = Progress {
            standing,
            units: units + 1,
        };
    }
}
