//! Spots: the states of a move table.

ghost use Rattle.std.specs.Prelude.{◌≡◌};
ghost use Rattle.tables.specs.Spots.{within};

// The highest zone, and the highest level.
const TOP: u8 = 63;

/// A state of a move table: a zone and a level, each from 0 to 63.
///
/// A spot with a higher zone or level can be written down and asked about, and has no outcomes and is no goal. Spots
/// are in order by zone, then by level.
#[derive(Clone, Copy, Debug, PartialEq, Eq, PartialOrd, Ord)]
pub struct Spot {
    /// The zone, from 0 to 63.
    pub zone: u8,
    /// The level in it, from 0 to 63.
    pub level: u8,
}

impl Spot {
    // Whether both fields are at most 63.
    pub(crate) fn within(self) -> bool
        ensures { result ≡ within self }
    {
        self.zone <= TOP && self.level <= TOP
    }
}
