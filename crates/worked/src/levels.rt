//! Spots and wanted levels of the tables here.

ghost use Rattle.std.specs.Prelude.{◌≡◌};
ghost use Rattle.worked.specs.Chains.{levels_from};

use tables::Spot;

/// Where the tables start.
pub const ORIGIN: Spot = Spot { zone: 0, level: 0 };

/// Levels that no spot reaches.
pub const NEVER: [u8; 64] = [64; 64];

/// The levels that make goals of a spot and those above it in its zone, and of no others.
pub fn wanted_from(goal: Spot) -> [u8; 64]
    ensures { result ≡ levels_from goal }
{
    let mut wanted = NEVER;
    // By its place, since a proof knows no element of a list that `get_mut` has lent.
    let zone = usize::from(goal.zone);
    if zone < wanted.len() {
        wanted[zone] = goal.level;
    }
    wanted
}
