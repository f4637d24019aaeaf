//! What a session holds besides its lists: plain data.

/// What a session knows of the state at the same place: its rank and its act. Either may be blank.
#[derive(Clone, Copy, Debug, PartialEq, Eq)]
pub struct Row {
    /// In how few acts the goal is reached whatever the outcomes; blank if it is not known to be reached.
    pub rank: Option<u16>,
    /// The lowest act that gives the rank; blank at rank 0 and at a blank rank.
    pub act: Option<u8>,
}

/// A row that tells nothing.
pub const BLANK: Row = Row {
    rank: None,
    act: None,
};

/// A walk along a plan: the place that it has come to, and the acts done since its start.
#[derive(Clone, Copy, Debug, PartialEq, Eq)]
pub struct Walk {
    pub(crate) place: usize,
    pub(crate) acts: u32,
}

/// Where a search stands. Any but `Working` is decided.
#[derive(Clone, Copy, Debug, PartialEq, Eq)]
pub enum Standing {
    /// The search has not ended.
    Working,
    /// The search has ended, and no plan is strong.
    NoPlan,
    /// The search has ended: so many acts suffice for a strong plan, and fewer do not.
    Found(u16),
    /// The search stopped in that unit, for want of places: it has not ended.
    Full(u32),
}

/// Where a search stands, and the units that it has spent.
#[derive(Clone, Copy, Debug, PartialEq, Eq)]
pub struct Progress {
    /// Where the search stands.
    pub standing: Standing,
    /// The units that it has spent in all calls so far.
    pub units: u32,
}

/// All of a session but its lists.
#[derive(Clone, Copy, Debug, PartialEq, Eq)]
pub struct Record {
    pub(crate) listed: u16,
    pub(crate) progress: Progress,
    pub(crate) walk: Option<Walk>,
}
