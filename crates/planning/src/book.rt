//! Books of moves.

ghost use Rattle.std.specs.Prelude.{◌≡◌};
ghost use Rattle.std.specs.List.{slice_get};
ghost use Rattle.planning.specs.Meaning.{Lawful, Meaning};

/// A book of moves: where a search starts, what each act may lead to in a state, and which states are goals.
///
/// A book is asked only through its meaning, which every answer follows, on any value of the type and for every state.
/// No question is refused, and none changes the book.
pub trait Book {
    /// What a search stands in: a cell of valuations, a spot of a table.
    type State: Copy;

    // What a value of the type means: its start, acts, outcomes, goals and sameness.
    ghost meaning: { Self → Meaning Self.State };

    /// The state in which a search starts.
    fn start(&self) -> Self::State
        ensures { result ≡ (meaning self.now).start };

    /// How many acts there are: at most 16, numbered from 0.
    fn acts(&self) -> u8
        ensures { result ≡ (meaning self.now).acts };

    /// The outcome of that number, from 0, of an act in a state; nothing past the last. An act with an outcome is
    /// applicable.
    fn outcome(&self, s: Self::State, act: u8, number: u8) -> Option<Self::State>
        ensures { result ≡ slice_get ((meaning self.now).outcomes s act) number };

    /// Whether the state is a goal.
    fn goal(&self, s: Self::State) -> bool
        ensures { result ≡ (meaning self.now).goal s };

    /// Whether two states count as one.
    fn same(&self, s: Self::State, t: Self::State) -> bool
        ensures { result ≡ (meaning self.now).same s t };

    // Every value is lawful: few acts and outcomes, and sameness is an equivalence that goals and outcomes respect.
    ghost lawful: { (b : Self) → Lawful (meaning b) };
}
