//! Cells: masks with bit v set for each valuation v in them.

ghost use Rattle.std.specs.Prelude.{◌≡◌, ◌≤◌, is_some};
ghost use Rattle.epistemic.specs.Bits.{bit};
ghost use Rattle.epistemic.specs.Cells.{Fit, fit};

/// Whether the mask has bit `i`: whether a cell has that valuation, or a set of features that letter.
pub fn has(mask: u64, i: u8) -> bool
    ensures { result ≡ bit mask i }
{
    i < 64 && mask >> i & 1 == 1
}

// A set of valuations of so many features, six at most.
#[derive(Clone, Copy)]
pub(crate) struct Cell {
    pub(crate) letters: u8,
    pub(crate) mask: u64,
    ghost few: { letters ≤ 6 },
    ghost within: { Fit letters mask },
}

impl Cell {
    // The cell of that mask, if it has only valuations of `letters` features.
    pub(crate) fn new(letters: u8, mask: u64) -> Option<Cell>
        requires { letters ≤ 6 }
        ensures some { is_some result ≡ fit letters mask }
        ensures cell { (c : Cell) → result ≡ Some c → (c.letters ≡ letters) × (c.mask ≡ mask) }
    {
        // Not by `then`: its closure is not told the test, which makes a cell of the mask.
        if letters == 6 || mask >> (1u32 << letters) == 0 {
            Some(Cell { letters, mask })
        } else {
            None
        }
    }
}
