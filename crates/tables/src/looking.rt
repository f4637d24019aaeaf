//! Looking up the rows of a spot and an act.

ghost use Rattle.std.specs.Prelude.{◌≡◌};
ghost use Rattle.tables.specs.Looking.{first_row};

use crate::row::{Key, TableRow};

// The place of the first row that does not come before the key, found by halving. The rows should be in order; in
// others the search ends somewhere.
//
// By hand: a book has no invariant, so that its laws hold of any value (docs/DECISIONS.md). So the rows need not be in
// order, and of such rows `partition_point` says nothing.
pub(crate) fn first_row(rows: &[TableRow], key: Key) -> usize
    ensures { result ≡ first_row rows.now key.from key.act }
{
    let mut low = 0;
    let mut high = rows.len();
    while low < high {
        let middle = low + (high - low) / 2;
        if rows[middle].key() < key {
            low = middle + 1;
        } else {
            high = middle;
        }
    }
    low
}
