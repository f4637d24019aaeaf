//! A cell updated by an act: the new valuations of each class.

ghost use Rattle.std.specs.Prelude.{◌≡◌, map, filter, nat_eq};
ghost use Rattle.std.specs.Bool.{then_some};
ghost use Rattle.std.specs.List.{range_with_len, slice_get};
ghost use Rattle.epistemic.specs.Acts.{nonempty, outcome, possible};
ghost use Rattle.knowledge.specs.Acting.{act_of};

use crate::cell::Cell;
use sheets::Events;

impl Cell {
    // The new valuations of each class after the act that the bytes spell; nothing unless each valuation of the cell has
    // a possible event.
    pub(crate) fn updated(self, act: &[u8]) -> Option<[u64; 8]>
        ensures { result ≡ then_some (nat_eq (possible self.letters self.mask (act_of self.letters act.now)) self.mask) (map (λ k. outcome self.letters self.mask k (act_of self.letters act.now)) (range_with_len 0 8)) }
    {
        let mut covered = 0;
        let mut classes = [0; 8];
        for event in Events::new(act) {
            let here = self.part(event.condition);
            covered |= here.mask;
            classes[usize::from(event.class % 8)] |= here.image(event);
        }
        (covered == self.mask).then_some(classes)
    }
}

// The mask of that number, from 0, among those that are not empty; nothing past the last.
pub(crate) fn nth_nonempty(masks: &[u64], number: u8) -> Option<u64>
    ensures { result ≡ slice_get (filter nonempty masks.now) number }
{
    masks
        .iter()
        .copied()
        .filter(|mask| *mask != 0)
        .nth(usize::from(number))
}
