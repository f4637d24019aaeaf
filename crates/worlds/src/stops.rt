//! Why a world bench was not made.

ghost use Rattle.std.specs.Prelude.{Some};
ghost use Rattle.worlds.specs.Stops.{world_stop_text};

use std::error::Error;
use std::fmt;

/// Why a world bench was not made.
#[derive(Clone, Copy, Debug, PartialEq, Eq)]
pub enum WorldStop {
    /// The actual valuation is outside the start cell.
    Outside,
}

/// Says why, with the number of the refusal.
impl fmt::Display for WorldStop {
    ghost output = { λ e. Some (world_stop_text e) };

    fn fmt<W: fmt::Write>(&self, f: &mut fmt::Formatter<W>) -> fmt::Result {
        f.write_str(match self {
            WorldStop::Outside => "outside the start cell: stop 17",
        })
    }
}

impl Error for WorldStop {}
