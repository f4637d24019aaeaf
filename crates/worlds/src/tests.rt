//! Benches of a small sheet, made and carried along.

use crate::WorldBench;
use knowledge::KnowledgeBook;
use planning::Book;
use session::{BLANK, Bench, Session, Step};
use std::test::Fail;

// One feature `a`, at the start unknown; the goal is that it holds. Act 0 sets it in class 0 or clears it in class 1.
const SWITCH: &[u8; 33] =
    b"\x01\x01\x0e\0\x08\0\x16\0\x01\0\x17\0\x0a\0\x03\0\0\0\0\0\0\0a\0\x01\0\x01T\x01\0\x01\x01T";

// Two features, folded (`a`), at the start unknown, and mended (`b`), which is the goal. Act 0 looks whether it is
// folded, act 1 unfolds and mends, and act 2 mends what is not folded.
const PATCH: &[u8; 53] =
    b"\x02\x03\x16\0\x08\0\x1e\0\x01\0\x1f\0\x0b\0\x2a\0\x05\0\x2f\0\x06\0\x03\0\0\0\0\0\0\0b\0\0\0\x01a\x01\0\0\x02!a\0\x02\x01\x01a\0\x02\0\x02!a";

// Cell and valuation of a bench that is made with a byte and carries act 0, if it is made and carries it.
fn carried(book: &KnowledgeBook<'_>, valuation: u8, choice: u8) -> Option<(u64, u8)> {
    let mut bench = WorldBench::new(book, valuation, choice).ok()?;
    bench.carry(book, 0).ok()?;
    Some((bench.cell(), bench.valuation()))
}

#[test]
fn the_byte_chooses(rt: HostRuntime) -> Result<(), Fail> {
    let book = KnowledgeBook::read(SWITCH)?;
    assert_eq!(rt; carried(&book, 0, 0), Some((2, 1)));
    assert_eq!(rt; carried(&book, 1, 254), Some((2, 1)));
    assert_eq!(rt; carried(&book, 1, 255), Some((1, 0)));
    assert_eq!(rt; carried(&book, 2, 0), None);
    assert_eq!(rt; carried(&book, 64, 0), None);
    assert_eq!(rt; carried(&book, 255, 0), None);
    Ok(())
}

// The acts of a walk on a bench at a valuation, with the ranks that they lead to, up to the goal or to two of them.
fn walked(valuation: u8) -> Result<[Option<(u8, u16)>; 3], Fail> {
    let book = KnowledgeBook::read(PATCH)?;
    let mut bench = WorldBench::new(&book, valuation, 0)?;
    let mut states = [0; 4];
    let mut rows = [BLANK; 4];
    let mut session = Session::new(&book, &mut states, &mut rows);
    let _ = session.work(&book, 16);
    if session.start(&book, &bench)? != 2 {
        return Err(Fail::new("the start has another rank"));
    }
    let mut acts = [None; 3];
    for taken in &mut acts {
        if let Ok(Step::Acted { act, rank }) = session.step(&book, &mut bench) {
            *taken = Some((act, rank));
        }
    }
    Ok(acts)
}

#[test]
fn a_walk_ends_at_the_goal(rt: HostRuntime) -> Result<(), Fail> {
    assert_eq!(rt; walked(0)?, [Some((0, 1)), Some((2, 0)), None]);
    assert_eq!(rt; walked(1)?, [Some((0, 1)), Some((1, 0)), None]);
    Ok(())
}
