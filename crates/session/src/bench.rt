//! What a walk is carried out on.

ghost use Rattle.std.specs.Prelude.{◌≡◌, Bool, Err};
ghost use Rattle.session.specs.Stops.{carry_number};
ghost use Rattle.session.specs.Walks.{Carried, post_of};
ghost use Rattle.session.specs.declared.stops.CarryStop.{CarryStop};

use crate::stops::CarryStop;
use planning::Book;

/// A bench of a book: something that stands in a state and can carry acts out, one outcome each time, of its own
/// choosing.
///
/// Its meaning is the state that it stands in and whether it is ready, both told without change. Each call is given the
/// book. An impl whose `carry` promises more says these clauses too, as the language has it.
pub trait Bench<B: Book> {
    // The state that the bench stands in.
    ghost stands: { Self → B.State };

    // Whether it is ready, which may depend on the book.
    ghost fit: { B → Self → Bool };

    /// The state that the bench stands in.
    fn state(&self, book: &B) -> B::State
        ensures { result ≡ stands self.now };

    /// Whether the bench can carry an act out.
    fn ready(&self, book: &B) -> bool
        ensures { result ≡ fit book.now self.now };

    /// Carries an act out: the bench then stands in a state that is the same as one of the outcomes, and its readiness
    /// may have changed. Refused where the bench is not ready, then where the act is not applicable in its state;
    /// nothing has changed then.
    fn carry(&mut self, book: &B, act: u8) -> Result<(), CarryStop>
        ensures carried { Carried (B.meaning book.now) (post_of stands (fit book.now) self.old) act (carry_number result) (post_of stands (fit book.now) self.new) }
        ensures refused { (e : CarryStop) → result ≡ Err e → self.new ≡ self.old };
}
