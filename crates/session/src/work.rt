//! Making a session, and working unit by unit.

ghost use Rattle.std.specs.Prelude.{◌≡◌, None};
ghost use Rattle.session.specs.Calls.{Made, Worked};
ghost use Rattle.session.specs.Course.{Course, Portions};
ghost use Rattle.session.specs.Units.{Moves, works_at};
ghost use Rattle.session.specs.Views.{SameLists, view};

use crate::expand::fresh_row;
use crate::lists::Session;
use crate::plain::{Progress, Record, Row, Standing};
use planning::Book;

// The record of a session that has just been made.
fn fresh_record(listed: u16, standing: Standing) -> Record
    ensures { result ≡ record { listed = listed; progress = record { standing = standing; units = 0 }; walk = None } }
{
    Record {
        listed,
        progress: Progress { standing, units: 0 },
        walk: None,
    }
}

// Writes a fresh search into two lists, and answers all of it but its lists.
pub(crate) fn begin<B: Book>(book: &B, states: &mut [B::State], rows: &mut [Row]) -> Record
    ensures { Made (B.meaning book.now) states.old rows.old (record { states = states.new; rows = rows.new; plain = result }) }
{
    let n = states.len().min(rows.len());
    if n == 0 {
        return fresh_record(0, Standing::Full(0));
    }
    let s = book.start();
    states[0] = s;
    rows[0] = fresh_row(book, s);
    fresh_record(1, Standing::Working)
}

impl<'a, S: Copy> Session<'a, S> {
    /// A fresh session over two lists: the start stands at place 0, with rank 0 if it is a goal. It is full at once where
    /// there is no place. Never refused; no other place is written.
    pub fn new<B: Book<State = S>>(book: &B, states: &'a mut [S], rows: &'a mut [Row]) -> Self
        ensures { Made (B.meaning book.now) states.old rows.old (view result) }
    {
        let record = begin(book, states, rows);
        Session {
            states,
            rows,
            record,
        }
    }

    // One unit of work.
    fn unit<B: Book<State = S>>(&mut self, book: &B)
        ensures moves { Moves (B.meaning book.now) (Unit {0}) (view self.old) (view self.new) }
        ensures lent { SameLists self.old self.new }
    {
        if self.record.progress.units < u32::from(self.record.listed) {
            self.expand_place(book);
        } else {
            self.visit_place(book);
        }
    }

    // Whether the search has not ended.
    fn working(&self) -> bool
        ensures { result ≡ works_at self.now.«record».progress.standing }
    {
        self.record.progress.standing == Standing::Working
    }

    /// Works for at most `quota` units, fewer if the search is decided before, and answers where the search then stands
    /// and the units spent in all calls so far. Work in portions is work in one.
    pub fn work<B: Book<State = S>>(&mut self, book: &B, quota: u32) -> Progress
        ensures worked { Worked (B.meaning book.now) quota (view self.old) result (view self.new) }
        ensures course { Course (B.meaning book.now) }
        ensures portions { Portions (B.meaning book.now) }
        ensures lent { SameLists self.old self.new }
    {
        for _unit in 0..quota {
            if !self.working() {
                return self.record.progress;
            }
            self.unit(book);
        }
        self.record.progress
    }
}
