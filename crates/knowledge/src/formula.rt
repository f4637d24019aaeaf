//! Formulas over a cell, evaluated for all its valuations at once.

ghost use Rattle.std.specs.Prelude.{◌≡◌, if◌then◌else◌, nat_eq};
ghost use Rattle.epistemic.specs.Cells.{letter_mask, truth};
ghost use Rattle.knowledge.specs.Judging.{Judged};
ghost use Rattle.knowledge.specs.Texts.{atom, read};

use crate::cell::Cell;

impl Cell {
    // The valuations of the cell at which the formula holds that the bytes begin with.
    pub(crate) fn part(self, text: &[u8]) -> Cell
        ensures letters { result.letters ≡ self.letters }
        ensures mask { result.mask ≡ truth self.letters self.mask (read self.letters text.now).formula }
    {
        let (mask, _) = evaluate(self.mask, self.letters, text);
        Cell {
            letters: self.letters,
            mask,
        }
    }

    // Whether the formula that the bytes begin with holds at all valuations of the cell.
    pub(crate) fn satisfies(self, text: &[u8]) -> bool
        ensures { result ≡ nat_eq (truth self.letters self.mask (read self.letters text.now).formula) self.mask }
    {
        self.part(text).mask == self.mask
    }
}

/// The valuations of the cell, as a mask, at which the formula holds that the bytes begin with, and the bytes after it.
///
/// Letters are those below `letters`. Bytes that are no formula are evaluated too: a byte that is no sign, a letter past
/// the last, and a formula missing at the end hold nowhere.
pub fn evaluate<'a>(cell: u64, letters: u8, text: &'a [u8]) -> (u64, &'a [u8])
    ensures mask { result.0 ≡ truth 6 cell (read letters text.now).formula }
    ensures rest { result.1.now ≡ (read letters text.now).rest }
    ensures whole { Judged letters cell text.now result.0 result.1.now }
{
    let [sign, rest @ ..] = text else {
        return (0, text);
    };
    match *sign {
        b'!' => {
            let (inner, rest) = evaluate(cell, letters, rest);
            (cell ^ inner, rest)
        }
        b'K' => {
            let (inner, rest) = evaluate(cell, letters, rest);
            (whole_if(cell, inner == cell), rest)
        }
        b'M' => {
            let (inner, rest) = evaluate(cell, letters, rest);
            (whole_if(cell, inner != 0), rest)
        }
        b'&' => {
            let (left, rest) = evaluate(cell, letters, rest);
            let (right, rest) = evaluate(cell, letters, rest);
            (left & right, rest)
        }
        b'|' => {
            let (left, rest) = evaluate(cell, letters, rest);
            let (right, rest) = evaluate(cell, letters, rest);
            (left | right, rest)
        }
        sign => (atom_mask(cell, letters, sign), rest),
    }
}

// The whole cell if something holds of it, else nothing.
fn whole_if(cell: u64, holds: bool) -> u64
    ensures { result ≡ (if holds then cell else 0) }
{
    if holds { cell } else { 0 }
}

// The valuations of the cell at which a byte holds that governs nothing.
fn atom_mask(cell: u64, letters: u8, sign: u8) -> u64
    ensures { result ≡ truth 6 cell (atom letters sign) }
{
    match sign {
        b'T' => cell,
        b'a'.. if sign - b'a' < letters => cell & letter_mask(sign - b'a'),
        _ => 0,
    }
}

// The valuations at which each letter holds.
const LETTER_MASKS: [u64; 6] = [
    0xAAAA_AAAA_AAAA_AAAA,
    0xCCCC_CCCC_CCCC_CCCC,
    0xF0F0_F0F0_F0F0_F0F0,
    0xFF00_FF00_FF00_FF00,
    0xFFFF_0000_FFFF_0000,
    0xFFFF_FFFF_0000_0000,
];

// The valuations at which letter `i` holds.
#[tactic(auto, using(crate::proofs::Letters::letter_at))]
pub(crate) fn letter_mask(i: u8) -> u64
    ensures { result ≡ letter_mask 6 i }
{
    LETTER_MASKS.get(usize::from(i)).copied().unwrap_or(0)
}
