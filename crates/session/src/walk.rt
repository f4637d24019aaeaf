//! Walking along a plan: start and step.

ghost use Rattle.std.specs.Prelude.{◌≡◌, Ok, Err};
ghost use Rattle.session.specs.Views.{SameLists, ranked_place, view};
ghost use Rattle.session.specs.Walks.{Started, Stepped, post_of};
ghost use Rattle.session.specs.declared.stops.StartStop.{StartStop};
ghost use Rattle.session.specs.declared.stops.StepStop.{StepStop};
ghost use Rattle.session.specs.declared.calls.Step.TheVariants.{Goal};

use crate::bench::Bench;
use crate::calls::Step;
use crate::lists::Session;
use crate::plain::{Standing, Walk};
use crate::stops::{StartStop, StepStop};
use planning::Book;

impl<'a, S: Copy> Session<'a, S> {
    // The first listed place whose state is the same as s, with its rank, if it has one.
    fn ranked_place<B: Book<State = S>>(&self, book: &B, s: S) -> Option<(usize, u16)>
        ensures { result ≡ ranked_place (B.meaning book.now) (view self.now) s }
    {
        let place = self.place(book, s)?;
        let row = self.row(place)?;
        let rank = row.rank?;
        Some((place, rank))
    }

    /// Starts a walk in the bench's state, with no act done, and answers that state's rank. Refused while working, then
    /// at full, then where no listed state is the same, then where the rank is blank; the session is then as it was,
    /// with its walk.
    pub fn start<B: Book<State = S>, K: Bench<B>>(
        &mut self,
        book: &B,
        bench: &K,
    ) -> Result<u16, StartStop>
        ensures started { Started (B.meaning book.now) (post_of K.stands (K.fit book.now) bench.now) (view self.old) result (view self.new) }
        ensures refused { (e : StartStop) → result ≡ Err e → view self.new ≡ view self.old }
        ensures lent { SameLists self.old self.new }
    {
        self.concluded()?;
        let place = self
            .place(book, bench.state(book))
            .ok_or(StartStop::Unlisted)?;
        let row = self.row(place).ok_or(StartStop::Unlisted)?;
        let rank = row.rank.ok_or(StartStop::Blank)?;
        self.record.walk = Some(Walk { place, acts: 0 });
        Ok(rank)
    }

    /// Goes one step along the walk: reports the goal where the walk has come to one, else has the bench carry out the
    /// act of the walk's row, and moves the walk to the bench's new state. Refused where there is no walk, then where
    /// the bench's state is not the same as the walk's; past the goal, where the bench is not ready, then where the act
    /// is not applicable. A refused step and one that reports the goal change nothing in session and bench.
    pub fn step<B: Book<State = S>, K: Bench<B>>(
        &mut self,
        book: &B,
        bench: &mut K,
    ) -> Result<Step, StepStop>
        ensures stepped { Stepped (B.meaning book.now) (post_of K.stands (K.fit book.now) bench.old) (view self.old) result (post_of K.stands (K.fit book.now) bench.new) (view self.new) }
        ensures refused { (e : StepStop) → result ≡ Err e → (view self.new ≡ view self.old) × (bench.new ≡ bench.old) }
        ensures goal { result ≡ Ok Goal → (view self.new ≡ view self.old) × (bench.new ≡ bench.old) }
        ensures lent { SameLists self.old self.new }
    {
        let walk = self.record.walk.ok_or(StepStop::NoWalk)?;
        let s = self.state(walk.place).ok_or(StepStop::NoWalk)?;
        if !book.same(s, bench.state(book)) {
            return Err(StepStop::Elsewhere);
        }
        let row = self.row(walk.place).ok_or(StepStop::NoWalk)?;
        let Some(act) = row.act else {
            return Ok(Step::Goal);
        };
        bench.carry(book, act)?;
        let Some((place, rank)) = self.ranked_place(book, bench.state(book)) else {
            // Only another book than the session's own leads here: the walk ends, and the rank told is one that no state
            // has, since what a step answers has no case for none.
            self.record.walk = None;
            return Ok(Step::Acted {
                act,
                rank: u16::MAX,
            });
        };
        self.record.walk = Some(Walk {
            place,
            acts: walk.acts.saturating_add(1),
        });
        Ok(Step::Acted { act, rank })
    }
}
