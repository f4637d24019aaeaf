//! Calls on a session and their answers, as plain data.

use crate::plain::{Progress, Row};
use crate::stops::{AskStop, StartStop, StepStop};

/// What a step that was not refused did.
#[derive(Clone, Copy, Debug, PartialEq, Eq)]
pub enum Step {
    /// The walk had come to a goal: nothing was done.
    Goal,
    /// That act was carried out, and the walk has come to a state of that rank.
    Acted { act: u8, rank: u16 },
}

/// A call on a session; start and step name their bench by its number, from 0.
#[derive(Clone, Copy, Debug, PartialEq, Eq)]
pub enum Call<S> {
    /// Work for that quota of units.
    Work(u32),
    /// Ask of that state.
    Ask(S),
    /// Start a walk at that bench.
    Start(usize),
    /// Go one step with that bench.
    Step(usize),
}

/// What a call answered.
#[derive(Clone, Copy, Debug, PartialEq, Eq)]
pub enum Answer {
    /// The answer of work.
    Worked(Progress),
    /// The answer of ask.
    Asked(Result<Row, AskStop>),
    /// The answer of start.
    Started(Result<u16, StartStop>),
    /// The answer of step.
    Stepped(Result<Step, StepStop>),
    /// There is no bench of that number, and no call was made.
    NoBench,
}
