//! Putting a session together from its record and its lists, and taking it apart.

ghost use Rattle.std.specs.Prelude.{◌≡◌};
ghost use Rattle.session.specs.Views.{view};

use crate::lists::Session;
use crate::plain::{Record, Row};

impl<'a, S: Copy> Session<'a, S> {
    /// A session put together from its record and its two lists.
    pub fn resume(from: Record, states: &'a mut [S], rows: &'a mut [Row]) -> Self
        ensures { view result ≡ record { states = states.old; rows = rows.old; plain = from } }
    {
        Session {
            states,
            rows,
            record: from,
        }
    }

    /// All of the session but its lists.
    pub fn record(&self) -> Record
        ensures { result ≡ (view self.now).plain }
    {
        self.record
    }
}
