//! What a world bench holds.

ghost use Rattle.std.specs.Prelude.{◌≡◌, T};
ghost use Rattle.epistemic.specs.Bits.{bit};

/// A bench of knowledge books: the cell that the agent sees, the actual valuation, which always lies in that cell, and a
/// byte that chooses among the events that are possible there.
#[derive(Clone, Copy)]
pub struct WorldBench {
    pub(crate) cell: u64,
    pub(crate) valuation: u8,
    pub(crate) choice: u8,
    ghost inside: { T (bit cell valuation) },
}

impl WorldBench {
    /// The cell that the agent sees.
    pub fn cell(&self) -> u64
        ensures { result ≡ self.now.cell }
    {
        self.cell
    }

    /// The actual valuation, which lies in the cell.
    pub fn valuation(&self) -> u8
        ensures answer { result ≡ self.now.valuation }
        ensures inside { T (bit self.now.cell result) }
    {
        self.valuation
    }
}
