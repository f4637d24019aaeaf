//! Tables at their limits, and what a small table answers.

use crate::{MoveTable, Spot, TableFault, TableRow};
use planning::{Book, find};
use std::test::Fail;

const LEVELS: [u8; 64] = [64; 64];

fn spot(zone: u8, level: u8) -> Spot {
    Spot { zone, level }
}

fn row(zone: u8, level: u8, act: u8) -> TableRow {
    TableRow {
        from: spot(zone, level),
        act,
        to: spot(level, zone),
    }
}

// Number and place of the fault of a table; 0 and 0 for one that is accepted, since no fault has the number 0.
fn judged(acts: u8, start: Spot, wanted: &[u8], rows: &[TableRow]) -> (u8, usize) {
    MoveTable::new(acts, start, wanted, rows)
        .err()
        .map_or((0, 0), |fault| (fault.number(), fault.place()))
}

// The same for rows alone, with two acts.
fn judged_rows(rows: &[TableRow]) -> (u8, usize) {
    judged(2, spot(0, 0), &LEVELS, rows)
}

#[test]
fn parts_at_their_limits(rt: HostRuntime) {
    let low = spot(0, 0);
    assert_eq!(rt; judged(16, spot(63, 63), &LEVELS, &[]), (0, 0));
    assert_eq!(rt; judged(17, spot(64, 0), &[], &[row(0, 0, 99)]), (7, 0));
    assert_eq!(rt; judged(0, spot(64, 0), &[], &[row(0, 0, 99)]), (7, 1));
    assert_eq!(rt; judged(0, spot(0, 64), &LEVELS, &[]), (7, 1));
    assert_eq!(rt; judged(0, low, &LEVELS[0..63], &[row(0, 0, 99)]), (7, 2));
    assert_eq!(rt; judged(0, low, &[65; 64], &[]), (7, 2));
    assert_eq!(rt; judged(0, low, &LEVELS, &[row(0, 0, 0)]), (8, 0));
}

#[test]
fn rows_at_their_limits(rt: HostRuntime) {
    assert_eq!(rt; judged_rows(&[row(0, 0, 0), row(63, 63, 1)]), (0, 0));
    assert_eq!(rt; judged_rows(&[row(64, 0, 0)]), (8, 0));
    assert_eq!(rt; judged_rows(&[row(0, 0, 0), row(0, 64, 0)]), (8, 1));
    assert_eq!(rt; judged_rows(&[row(0, 0, 1), row(0, 0, 2)]), (8, 1));
    assert_eq!(rt; judged_rows(&[row(0, 1, 0), row(1, 0, 0)]), (0, 0));
    assert_eq!(rt; judged_rows(&[row(1, 0, 0), row(0, 1, 0)]), (8, 1));
    assert_eq!(rt; judged_rows(&[row(0, 1, 0), row(0, 0, 1)]), (8, 1));
    assert_eq!(rt; judged_rows(&[row(0, 0, 1), row(0, 0, 0)]), (8, 1));
    assert_eq!(rt; judged_rows(&[row(3, 4, 1); 8]), (0, 0));
    assert_eq!(rt; judged_rows(&[row(3, 4, 1); 9]), (8, 8));
}

#[test]
fn a_table_answers_as_a_book(rt: HostRuntime) -> Result<(), Fail> {
    let mut wanted = LEVELS;
    wanted[4] = 3;
    let rows = [row(2, 9, 0), row(3, 4, 1), row(3, 4, 1), row(3, 5, 0)];
    let table = MoveTable::new(2, spot(3, 4), &wanted, &rows)?;
    let last = table
        .outcome(table.start(), 1, 1)
        .ok_or("the second outcome")?;
    assert!(rt; table.same(last, spot(4, 3)) && table.goal(last));
    assert!(rt; !table.goal(spot(4, 2)) && !table.goal(spot(4, 64)));
    assert!(rt; table.outcome(spot(3, 4), 1, 2).is_none());
    assert!(rt; table.outcome(spot(3, 4), 0, 0).is_none());
    assert_eq!(rt;
        find(&table, &[spot(0, 0), spot(3, 4)], table.start()),
        Some(1)
    );
    Ok(())
}

#[test]
fn a_fault_in_words(rt: HostRuntime) -> Result<(), Fail> {
    let fault = MoveTable::new(2, spot(0, 0), &LEVELS, &[row(0, 0, 0), row(0, 64, 0)])
        .err()
        .ok_or("a row with a level over 63 is accepted")?;
    assert_eq!(rt; fault, TableFault::Row(1));
    let text = fault.to_string(rt.alloc())?;
    assert_eq!(rt; text.as_str(), "stop 8 at place 1");
    Ok(())
}
