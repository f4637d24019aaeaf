//! Why a call was refused.

ghost use Rattle.std.specs.Prelude.{◌≡◌, Some};
ghost use Rattle.session.specs.Stops.{start_stop, start_text, step_stop, step_text};

use std::error::Error;
use std::fmt;

/// Why an ask was refused.
#[derive(Clone, Copy, Debug, PartialEq, Eq)]
pub enum AskStop {
    /// The search has not ended.
    Working,
    /// The search stopped for want of places.
    Full,
    /// The state is not in the list.
    Unlisted,
}

/// Why a start was refused.
#[derive(Clone, Copy, Debug, PartialEq, Eq)]
pub enum StartStop {
    // The first three are those of an ask, with names of their own, since callers match them here.
    /// The search has not ended.
    Working,
    /// The search stopped for want of places.
    Full,
    /// The bench's state is not in the list.
    Unlisted,
    /// The rank of the bench's state is blank.
    Blank,
}

/// Why a step was refused.
#[derive(Clone, Copy, Debug, PartialEq, Eq)]
pub enum StepStop {
    // The last two are those of a bench, with names of their own, since callers match them here.
    /// There is no walk.
    NoWalk,
    /// The bench's state is not the same as the walk's.
    Elsewhere,
    /// The bench is not ready.
    NotReady,
    /// The act is not applicable in the bench's state.
    NotApplicable,
}

/// Why a bench did not carry an act out.
#[derive(Clone, Copy, Debug, PartialEq, Eq)]
pub enum CarryStop {
    /// The bench is not ready.
    NotReady,
    /// The act is not applicable in the bench's state.
    NotApplicable,
}

/// A start is refused where an ask of the bench's state would be, for the same reason.
impl From<AskStop> for StartStop {
    ghost from_gives = { λ e r. r ≡ start_stop e };

    fn from(value: AskStop) -> StartStop {
        match value {
            AskStop::Working => StartStop::Working,
            AskStop::Full => StartStop::Full,
            AskStop::Unlisted => StartStop::Unlisted,
        }
    }
}

/// A step is refused where its bench refuses to carry the act out, for the same reason.
impl From<CarryStop> for StepStop {
    ghost from_gives = { λ e r. r ≡ step_stop e };

    fn from(value: CarryStop) -> StepStop {
        match value {
            CarryStop::NotReady => StepStop::NotReady,
            CarryStop::NotApplicable => StepStop::NotApplicable,
        }
    }
}

// Two impls of one shape, since their words differ case by case.
impl fmt::Display for StartStop {
    ghost output = { λ e. Some (start_text e) };

    fn fmt<W: fmt::Write>(&self, f: &mut fmt::Formatter<W>) -> fmt::Result {
        f.write_str(match self {
            StartStop::Working => "still working: stop 9",
            StartStop::Full => "full: stop 10",
            StartStop::Unlisted => "not listed: stop 11",
            StartStop::Blank => "no rank there: stop 12",
        })
    }
}

impl fmt::Display for StepStop {
    ghost output = { λ e. Some (step_text e) };

    fn fmt<W: fmt::Write>(&self, f: &mut fmt::Formatter<W>) -> fmt::Result {
        f.write_str(match self {
            StepStop::NoWalk => "no walk: stop 13",
            StepStop::Elsewhere => "the bench is elsewhere: stop 14",
            StepStop::NotReady => "the bench is not ready: stop 15",
            StepStop::NotApplicable => "not applicable: stop 16",
        })
    }
}

// The next two are alike in one line each; there is no impl for all types that turn into one that prints.
impl fmt::Display for AskStop {
    ghost output = { λ e. Some (start_text (start_stop e)) };

    fn fmt<W: fmt::Write>(&self, f: &mut fmt::Formatter<W>) -> fmt::Result {
        StartStop::from(*self).fmt(f)
    }
}

impl fmt::Display for CarryStop {
    ghost output = { λ e. Some (step_text (step_stop e)) };

    fn fmt<W: fmt::Write>(&self, f: &mut fmt::Formatter<W>) -> fmt::Result {
        StepStop::from(*self).fmt(f)
    }
}

impl Error for AskStop {}

impl Error for StartStop {}

impl Error for StepStop {}

impl Error for CarryStop {}
