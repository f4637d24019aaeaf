//! What an event makes of valuations, for a whole set of them at once.

ghost use Rattle.std.specs.Prelude.{◌≡◌, ℕ, ◌^◌, ◌<◌};
ghost use Rattle.epistemic.specs.Acts.{moved, with_feature};
ghost use Rattle.epistemic.specs.Bits.{image, put};
ghost use Rattle.sheets.specs.Events.{entry};
ghost use Rattle.knowledge.specs.Acting.{event_of};

use crate::cell::{Cell, has};
use crate::formula::letter_mask;
use sheets::Event;

impl Cell {
    // The valuations after the event, from those of the cell.
    pub(crate) fn image(self, event: Event<'_>) -> u64
        ensures { result ≡ image (moved self.letters (event_of self.letters (entry event.entry))) self.mask (2 ^ self.letters) }
    {
        let mut moved = self.mask;
        // Not by `fold`: its closure is not told that `i` is a letter, and would have to test it.
        for i in 0..self.letters {
            moved = changed(event, i, moved);
        }
        moved
    }
}

// The valuations of the mask with feature `i` as the event leaves it.
fn changed(event: Event<'_>, i: u8, mask: u64) -> u64
    requires { i < 6 }
    ensures { (n : ℕ) → i < n → result ≡ image (with_feature (event_of n (entry event.entry)) i) mask 64 }
{
    if has(u64::from(event.set), i) {
        assigned(mask, i, true)
    } else if has(u64::from(event.clear), i) {
        assigned(mask, i, false)
    } else {
        mask
    }
}

// The valuations of the mask with feature `i` set to the value.
fn assigned(mask: u64, i: u8, value: bool) -> u64
    requires { i < 6 }
    ensures { result ≡ image (put i value) mask 64 }
{
    let holds = letter_mask(i);
    if value {
        (mask | mask << (1u32 << i)) & holds
    } else {
        (mask | mask >> (1u32 << i)) & !holds
    }
}
