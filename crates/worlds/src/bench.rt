//! World benches: how one is made, and how an act is carried out on it.

ghost use Rattle.std.specs.Prelude.{◌≡◌, true, if◌then◌else◌, Ok, Err};
ghost use Rattle.epistemic.specs.Bits.{bit};
ghost use Rattle.knowledge.specs.Books.{book_meaning, content};
ghost use Rattle.session.specs.Stops.{carry_number};
ghost use Rattle.session.specs.Walks.{Carried};
ghost use Rattle.session.specs.declared.stops.CarryStop.{CarryStop};
ghost use Rattle.worlds.specs.Stops.{world_number};
ghost use Rattle.worlds.specs.Worlds.{Happens, after, applicable, chosen, made, seen, world_at};

use crate::stops::WorldStop;
use crate::world::WorldBench;
use knowledge::{KnowledgeBook, Move, has};
use planning::Book;
use session::{Bench, CarryStop};

impl WorldBench {
    /// A bench at the book's start, with an actual valuation and the byte that chooses. Refused where the valuation is
    /// outside the start cell, as those from 64 up are outside every cell.
    pub fn new(book: &KnowledgeBook<'_>, valuation: u8, choice: u8) -> Result<WorldBench, WorldStop>
        ensures answer { made result ≡ world_at (content book.now).start valuation choice }
        ensures stop { world_number result ≡ (if bit (content book.now).start valuation then 0 else 17) }
    {
        let cell = book.start();
        if has(cell, valuation) {
            Ok(WorldBench {
                cell,
                valuation,
                choice,
            })
        } else {
            Err(WorldStop::Outside)
        }
    }

    // The move that an act makes: of those at the actual valuation, the one that the byte chooses; none where the act
    // is not applicable.
    fn chosen(&self, book: &KnowledgeBook<'_>, act: u8) -> Option<Move>
        ensures { result ≡ chosen (content book.now) (seen self.now) act }
    {
        book.outcome(self.cell, act, 0)?;
        let count = book.moves(self.cell, self.valuation, act);
        let number = usize::from(self.choice) % count;
        book.nth_move(self.cell, self.valuation, act, number)
    }
}

/// The bench stands in its cell and is always ready. Of the events that are possible at the actual valuation in the
/// present cell, in the order of the sheet from 0, the one happens whose number is the byte modulo their count: the
/// bench then holds the event's new valuation, and the outcome of its class as its cell. Refused where the act is not
/// applicable in the cell; all that the bench holds is then as it was.
impl<'a> Bench<KnowledgeBook<'a>> for WorldBench {
    ghost stands = { λ b. b.cell };

    ghost fit = { λ _ _. true };

    fn state(&self, _book: &KnowledgeBook<'a>) -> u64 {
        self.cell()
    }

    fn ready(&self, _book: &KnowledgeBook<'a>) -> bool {
        true
    }

    // The clauses `carried` and `refused` are the trait's: a method that promises more has to say them too.
    fn carry(&mut self, book: &KnowledgeBook<'a>, act: u8) -> Result<(), CarryStop>
        ensures answer { result ≡ (if applicable (content book.now) (seen self.old) act then Ok tt else Err CarryStop.NotApplicable) }
        ensures stop { carry_number result ≡ (if applicable (content book.now) (seen self.old) act then 0 else 16) }
        ensures bench { seen self.new ≡ after (content book.now) (seen self.old) act }
        ensures happens { Happens (content book.now) (seen self.old) act }
        ensures carried { Carried (book_meaning (content book.now)) (record { state = self.old.cell; ready = true }) act (carry_number result) (record { state = self.new.cell; ready = true }) }
        ensures refused { (e : CarryStop) → result ≡ Err e → self.new ≡ self.old }
    {
        // A branch, and not `ok_or` with `?`: a must-fail edit alters the bench in it, and is to be refused for that.
        let Some(taken) = self.chosen(book, act) else {
            return Err(CarryStop::NotApplicable);
        };
        self.cell = book.class_outcome(self.cell, act, taken.class);
        self.valuation = taken.valuation;
        Ok(())
    }
}
