//! The outcomes of an act, one after another.

ghost use Rattle.std.specs.Prelude.{◌≡◌};
ghost use Rattle.std.specs.Iterator.{YieldsFirst, item_count};
ghost use Rattle.planning.specs.Going.{outcomes_left};

use crate::book::Book;

// The most outcomes that an act has in a state: past them the book need not be asked.
const MOST: u8 = 8;

/// The outcomes that an act has in a state, in their order.
#[derive(Drop)]
pub struct Outcomes<'a, B: Book> {
    book: &'a B,
    s: B::State,
    act: u8,
    number: u8,
}

impl<'a, B: Book> Outcomes<'a, B> {
    /// The outcomes of an act in a state of the book.
    pub fn new(book: &'a B, s: B::State, act: u8) -> Self
        ensures { outcomes_left B.meaning result ≡ (B.meaning book.now).outcomes s act }
    {
        Outcomes {
            book,
            s,
            act,
            number: 0,
        }
    }
}

impl<B: Book> Iterator for Outcomes<'_, B> {
    type Item = B::State;

    ghost next_gives = { YieldsFirst (outcomes_left B.meaning) };

    ghost remaining = { item_count (outcomes_left B.meaning) };

    fn next(&mut self) -> Option<B::State> {
        if self.number >= MOST {
            return None;
        }
        let outcome = self.book.outcome(self.s, self.act, self.number)?;
        self.number += 1;
        Some(outcome)
    }
}
