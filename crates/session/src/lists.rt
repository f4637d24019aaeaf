//! The two lists of a session, and what is looked up in them.

ghost use Rattle.std.specs.Prelude.{◌≡◌, take};
ghost use Rattle.std.specs.List.{slice_get};
ghost use Rattle.planning.specs.Finding.{place_of};
ghost use Rattle.session.specs.Views.{places, row_told, view};

use crate::plain::{Progress, Record, Row};
use planning::{Book, find};

/// The most places that a session uses.
pub const PLACES: usize = 4096;

/// A search over a book, laid over two lists of the caller, one of states and one of rows, which it holds for as long as
/// it stands. Place i of the rows tells of the state at place i. It uses the first N places of each, N being the least of
/// the two lengths and 4,096, and never writes a place that is not listed.
///
/// Nothing ties a session to a book: each call is handed one. Where that is not the book that the session was made with,
/// the call still ends and writes only its session, and its answer is free.
#[derive(Drop)]
pub struct Session<'a, S> {
    // Two lists and a count, and not one list that grows: the caller lends all memory, and lends it so. That a call
    // keeps both loans is a clause of each call that writes (`lent`): it ties two sessions together, which no type does.
    pub(crate) states: &'a mut [S],
    pub(crate) rows: &'a mut [Row],
    pub(crate) record: Record,
}

// The first n elements, or all if there are fewer.
fn front<T>(items: &[T], n: usize) -> &[T]
    ensures { result.now ≡ take n items.now }
{
    &items[..items.len().min(n)]
}

impl<'a, S: Copy> Session<'a, S> {
    /// Where the search stands, and the units that it has spent.
    pub fn progress(&self) -> Progress
        ensures { result ≡ (view self.now).plain.progress }
    {
        self.record.progress
    }

    /// The listed states.
    pub fn states(&self) -> &[S]
        ensures { result.now ≡ take (view self.now).plain.listed (view self.now).states }
    {
        front(self.states, usize::from(self.record.listed))
    }

    /// The rows of the listed states.
    pub fn rows(&self) -> &[Row]
        ensures { result.now ≡ take (view self.now).plain.listed (view self.now).rows }
    {
        front(self.rows, usize::from(self.record.listed))
    }

    // The number of places that the session can use.
    pub(crate) fn places(&self) -> usize
        ensures { result ≡ places (view self.now) }
    {
        self.states.len().min(self.rows.len()).min(PLACES)
    }

    // The first listed place whose state is the same as s.
    pub(crate) fn place<B: Book<State = S>>(&self, book: &B, s: S) -> Option<usize>
        ensures { result ≡ place_of (B.meaning book.now) (take self.now.«record».listed self.now.states.now) s }
    {
        find(book, self.states(), s)
    }

    // The state at place i.
    pub(crate) fn state(&self, i: usize) -> Option<S>
        ensures { result ≡ slice_get self.now.states.now i }
    {
        self.states.get(i).copied()
    }

    // The row at place i.
    pub(crate) fn row(&self, i: usize) -> Option<Row>
        ensures { result ≡ slice_get self.now.rows.now i }
    {
        self.rows.get(i).copied()
    }

    // The row of the first listed place whose state is the same as s.
    pub(crate) fn row_of<B: Book<State = S>>(&self, book: &B, s: S) -> Option<Row>
        ensures { result ≡ row_told (B.meaning book.now) (view self.now) s }
    {
        self.row(self.place(book, s)?)
    }
}
