//! Asking a decided session of a state.

ghost use Rattle.std.specs.Prelude.{◌≡◌};
ghost use Rattle.session.specs.Calls.{Asked, conclusion};
ghost use Rattle.session.specs.Views.{view};

use crate::lists::Session;
use crate::plain::{Row, Standing};
use crate::stops::AskStop;
use planning::Book;

impl<'a, S: Copy> Session<'a, S> {
    // Whether the search has gone to its end; refused while it works, then at full.
    pub(crate) fn concluded(&self) -> Result<(), AskStop>
        ensures { result ≡ conclusion (view self.now).plain.progress.standing }
    {
        match self.record.progress.standing {
            Standing::Working => Err(AskStop::Working),
            Standing::Full(_) => Err(AskStop::Full),
            Standing::NoPlan | Standing::Found(_) => Ok(()),
        }
    }

    /// The row of the first listed state that is the same as `s`; a blank rank is an answer too. Refused while working,
    /// then at full, then where no listed state is the same.
    pub fn ask<B: Book<State = S>>(&self, book: &B, s: S) -> Result<Row, AskStop>
        ensures { Asked (B.meaning book.now) s (view self.now) result (view self.now) }
    {
        self.concluded()?;
        self.row_of(book, s).ok_or(AskStop::Unlisted)
    }
}
