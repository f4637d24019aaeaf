//! Expanding a place: the outcomes of its state join the list.

ghost use Rattle.std.specs.Prelude.{◌≡◌, ◌<◌, [], ◌∷◌, is_ok};
ghost use Rattle.planning.specs.Finding.{outcomes_from};
ghost use Rattle.session.specs.ClosedForm.{row_by};
ghost use Rattle.session.specs.Joins.{Joins};
ghost use Rattle.session.specs.Units.{Moves};
ghost use Rattle.session.specs.Views.{SameLists, view};

use crate::lists::Session;
use crate::plain::{Progress, Row, Standing};
use planning::{Book, Outcomes};

// The row with which a state joins: rank 0 if it is a goal, else blank.
pub(crate) fn fresh_row<B: Book>(book: &B, s: B::State) -> Row
    ensures { result ≡ row_by (B.meaning book.now) 0 s }
{
    Row {
        rank: book.goal(s).then_some(0),
        act: None,
    }
}

// That there is no place for a state.
#[derive(Clone, Copy)]
struct NoPlace;

impl<'a, S: Copy> Session<'a, S> {
    // Joins s unless a same state is listed.
    fn join<B: Book<State = S>>(&mut self, book: &B, s: S) -> Result<(), NoPlace>
        ensures joins { Joins (B.meaning book.now) (s ∷ []) (view self.old) (is_ok result) (view self.new) }
        ensures lent { SameLists self.old self.new }
    {
        let listed = usize::from(self.record.listed);
        if listed > self.places() {
            return Err(NoPlace);
        }
        if self.place(book, s).is_some() {
            return Ok(());
        }
        if listed == self.places() {
            return Err(NoPlace);
        }
        self.states[listed] = s;
        self.rows[listed] = fresh_row(book, s);
        self.record.listed += 1;
        Ok(())
    }

    // Joins the outcomes of one act.
    fn join_outcomes<B: Book<State = S>>(&mut self, book: &B, s: S, act: u8) -> Result<(), NoPlace>
        ensures joins { Joins (B.meaning book.now) ((B.meaning book.now).outcomes s act) (view self.old) (is_ok result) (view self.new) }
        ensures lent { SameLists self.old self.new }
    {
        for o in Outcomes::new(book, s, act) {
            self.join(book, o)?;
        }
        Ok(())
    }

    // Joins the outcomes of all acts.
    fn expand<B: Book<State = S>>(&mut self, book: &B, s: S) -> Result<(), NoPlace>
        ensures joins { Joins (B.meaning book.now) (outcomes_from (B.meaning book.now) s 0 (B.meaning book.now).acts) (view self.old) (is_ok result) (view self.new) }
        ensures lent { SameLists self.old self.new }
    {
        // Not by `try_for_each`: its closure would change the session, and its proof would read no plainer.
        for act in 0..book.acts() {
            self.join_outcomes(book, s, act)?;
        }
        Ok(())
    }

    // A unit that expands a place.
    pub(crate) fn expand_place<B: Book<State = S>>(&mut self, book: &B)
        ensures moves { Moves (B.meaning book.now) (self.old.«record».progress.units < self.old.«record».listed) (view self.old) (view self.new) }
        ensures lent { SameLists self.old self.new }
    {
        let units = self.record.progress.units;
        if units == u32::MAX {
            return;
        }
        let Some(s) = self.state(units as usize) else {
            return;
        };
        // Both answers say where the search stands.
        let standing = match self.expand(book, s) {
            Ok(()) => Standing::Working,
            Err(NoPlace) => Standing::Full(units + 1),
        };
        self.record.progress = Progress {
            standing,
            units: units + 1,
        };
    }
}
