//! A table whose one act leads up by one level or does nothing.

ghost use Rattle.std.specs.Prelude.{◌≡◌};
ghost use Rattle.worked.specs.Worked.{slip};

use crate::levels::{ORIGIN, wanted_from};
use tables::{Spot, TableRow};

/// Level 1 is wanted in zone 0.
pub fn slip_wanted() -> [u8; 64]
    ensures { result ≡ slip.wanted }
{
    wanted_from(Spot { zone: 0, level: 1 })
}

/// An act that leads up by one level or does nothing.
pub fn slip_rows() -> [TableRow; 2]
    ensures { result ≡ slip.rows }
{
    [
        TableRow {
            from: ORIGIN,
            act: 0,
            to: ORIGIN,
        },
        TableRow {
            from: ORIGIN,
            act: 0,
            to: Spot { zone: 0, level: 1 },
        },
    ]
}
