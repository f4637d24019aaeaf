//! Books of moves, finite plans over them, and ranks: in how few acts the goal is reached whatever the outcomes.

#![tactic(auto)]

mod book;
mod outcomes;

ghost use Rattle.std.specs.Prelude.{◌≡◌};
ghost use Rattle.planning.specs.Finding.{place_of};
ghost use Rattle.planning.specs.Theory.{ListGrows, RankIsDepth, RanksSettled};

pub use book::Book;
pub use outcomes::Outcomes;

/// The first place of the list whose state is the same as `s`.
// A function of its own when built: within its callers the loop comes to lie by chance, and in some places it is slow.
#[inline(never)]
pub fn find<B: Book>(book: &B, states: &[B::State], s: B::State) -> Option<usize>
    ensures { result ≡ place_of (B.meaning book.now) states.now s }
{
    // By a name for the place, so that a must-fail edit answers another one and the look-up stays as it is.
    let place = states.iter().position(|t| book.same(*t, s))?;
    Some(place)
}

/// The theory of ranks and finding lists, for every book. Its contract is the theorem; it answers nothing.
pub fn ranks_are_depths<B: Book>(book: &B)
    ensures depth { RankIsDepth (B.meaning book.now) }
    ensures settled { RanksSettled (B.meaning book.now) }
    ensures grows { ListGrows (B.meaning book.now) }
{}
