//! Tables whose one act leads from each spot to the next, and tables of many rows.

use crate::spots::table;
use crate::words::{Asked, Told};
use session::{BLANK, PLACES, Session};
use std::alloc::{AllocError, Global};
use tables::TableRow;
use worked::{NEVER, ORIGIN, chain, spot, wanted_from};

// Plans a chain of so many moves to its end, and asks of a spot on the way.
fn tell_chain(rt: &(impl Print + AllocGlobal), moves: usize, asked: usize) -> anyhow::Result<()> {
    let rows = chain(rt.alloc(), moves)?;
    let wanted = wanted_from(spot(moves));
    let book = table(&wanted, &rows)?;
    let mut states = vec![in rt.alloc(); ORIGIN; PLACES]?;
    let mut list = vec![in rt.alloc(); BLANK; PLACES]?;
    let mut session = Session::new(&book, &mut states, &mut list);
    let told = Told(session.work(&book, u32::MAX));
    let row = Asked(session.ask(&book, spot(asked)));
    println!(rt; "A chain of {moves} moves: {told}; spot {asked} of it: {row}.")?;
    Ok(())
}

// So many rows, eight for each spot in turn.
fn eights(heap: Global, count: usize) -> Result<Vec<TableRow>, AllocError> {
    (0..count)
        .map(|number| TableRow {
            from: spot(number / 8),
            act: 0,
            to: ORIGIN,
        })
        .collect(heap)
}

// What becomes of a table of so many rows. (Of one that is accepted `tell_count` tells the plan too.)
fn tell_size(rt: &(impl Print + AllocGlobal), count: usize) -> anyhow::Result<()> {
    let rows = eights(rt.alloc(), count)?;
    // Not by `?`: the report tells a refusal and goes on.
    match table(&NEVER, &rows) {
        Ok(_) => println!(rt; "A table with {count} rows is accepted.")?,
        Err(fault) => println!(rt; "A table with {count} rows: {fault}.")?,
    }
    Ok(())
}

// A chain with ranks in the hundreds, one through all spots, and tables of as many rows as there may be, and one more.
pub(crate) fn report(rt: &(impl Print + AllocGlobal)) -> anyhow::Result<()> {
    tell_chain(rt, 299, 100)?;
    tell_chain(rt, 4095, 4095)?;
    tell_size(rt, 32_768)?;
    tell_size(rt, 32_769)
}
