//! Making a script bench, and carrying acts out on it.

ghost use Rattle.std.specs.Prelude.{◌≡◌, ◌<◌, length, drop, take, Err, IfSome};
ghost use Rattle.std.specs.List.{slice_get};
ghost use Rattle.session.specs.Stops.{carry_number};
ghost use Rattle.session.specs.Walks.{Carried};
ghost use Rattle.session.specs.declared.stops.CarryStop.{CarryStop};
ghost use Rattle.benches.specs.Scripts.{carry_answer, carry_leaves, post, script};

use crate::script::{CHOICES, ScriptBench};
use arrayvec::ArrayVec;
use planning::{Book, Outcomes};
use session::{Bench, CarryStop};

impl<S: Copy> ScriptBench<S> {
    /// A bench that stands in the book's start, with the first 64 bytes of the choices, or all if there are fewer.
    pub fn new<B: Book<State = S>>(book: &B, choices: &[u8]) -> Self
        ensures { script result ≡ record { state = (B.meaning book.now).start; bytes = take 64 choices.now } }
    {
        let count = choices.len().min(CHOICES);
        let mut held = ArrayVec::new();
        // So many fit.
        let _ = held.try_extend_from_slice(&choices[..count]);
        ScriptBench {
            state: book.start(),
            choices: held,
            used: 0,
        }
    }

    // How many bytes of the script remain.
    #[tactic(auto, using(crate::proofs::Choosing::left_long))]
    fn left(&self) -> usize
        ensures { result ≡ length (drop self.now.used self.now.choices.items) }
    {
        self.choices.len().saturating_sub(self.used)
    }

    // The next byte of the script, if one remains.
    fn choice(&self) -> Option<u8>
        ensures next { result ≡ slice_get self.now.choices.items self.now.used }
        ensures room { IfSome result (λ _. self.now.used < 64) }
    {
        if self.used >= self.choices.len() {
            return None;
        }
        Some(self.choices[self.used])
    }
}

/// The bench stands in its state and is ready while bytes remain. An act that it carries out uses the next byte, which,
/// modulo the number of outcomes, is the number of the outcome. Refused where no byte remains, then where the act is not
/// applicable; no byte is used then.
impl<S: Copy, B: Book<State = S>> Bench<B> for ScriptBench<S> {
    ghost stands = { λ k. (post (script k)).state };

    ghost fit = { λ _ k. (post (script k)).ready };

    fn state(&self, _book: &B) -> S {
        self.state
    }

    fn ready(&self, _book: &B) -> bool {
        self.left() > 0
    }

    // The clauses `carried` and `refused` are the trait's: a method that promises more has to say them too.
    fn carry(&mut self, book: &B, act: u8) -> Result<(), CarryStop>
        ensures carried { Carried (B.meaning book.now) (post (script self.old)) act (carry_number result) (post (script self.new)) }
        ensures refused { (e : CarryStop) → result ≡ Err e → self.new ≡ self.old }
        ensures answer { result ≡ carry_answer (B.meaning book.now) (script self.old) act }
        ensures leaves { script self.new ≡ carry_leaves (B.meaning book.now) (script self.old) act }
    {
        let choice = self.choice().ok_or(CarryStop::NotReady)?;
        let count = Outcomes::new(book, self.state, act).count();
        if count == 0 {
            return Err(CarryStop::NotApplicable);
        }
        // By its number, since going through the outcomes anew would ask the book for each one before it too.
        let number = (usize::from(choice) % count) as u8;
        self.state = book
            .outcome(self.state, act, number)
            .ok_or(CarryStop::NotApplicable)?;
        self.used += 1;
        Ok(())
    }
}
