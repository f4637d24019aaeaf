//! Tables whose one act leads from each spot to the next.

ghost use Rattle.std.specs.Prelude.{◌≡◌, IfOk};
ghost use Rattle.worked.specs.Chains.{chain_of, spot_numbered};

use std::alloc::{AllocError, Global};
use tables::{Spot, TableRow};

/// The spot of that number, level by level through zone after zone, and then from the first one again.
pub fn spot(number: usize) -> Spot
    ensures { result ≡ spot_numbered number }
{
    Spot {
        zone: (number / 64 % 64) as u8,
        level: (number % 64) as u8,
    }
}

/// So many moves, each from a spot to the next.
pub fn chain(heap: Global, moves: usize) -> Result<Vec<TableRow>, AllocError>
    ensures { IfOk result (λ rows. rows.items ≡ chain_of moves) }
{
    (0..moves)
        .map(|number| TableRow {
            from: spot(number),
            act: 0,
            to: spot(number + 1),
        })
        .collect(heap)
}
