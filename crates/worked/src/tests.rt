//! Chains where there is memory.

use crate::{ORIGIN, chain, spot};
use std::test::Fail;
use tables::{Spot, TableRow};

#[test]
fn a_chain_into_the_next_zone(rt: HostRuntime) -> Result<(), Fail> {
    let rows = chain(rt.alloc(), 64)?;
    assert_eq!(rt; rows.len(), 64);
    let second = Spot { zone: 0, level: 1 };
    let last = Spot { zone: 0, level: 63 };
    let beyond = Spot { zone: 1, level: 0 };
    assert_eq!(rt;
        rows.first().copied(),
        Some(TableRow {
            from: ORIGIN,
            act: 0,
            to: second
        })
    );
    assert_eq!(rt;
        rows.last().copied(),
        Some(TableRow {
            from: last,
            act: 0,
            to: beyond
        })
    );
    assert_eq!(rt; spot(4096), ORIGIN);
    Ok(())
}
