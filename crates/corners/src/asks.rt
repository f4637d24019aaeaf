//! Asks of states that are not in the list, before and after the end of a search.

use crate::spots::table;
use crate::words::{Asked, Told};
use knowledge::KnowledgeBook;
use planning::Book;
use session::{BLANK, Session};
use tables::Spot;
use worked::{patch, slip_rows, slip_wanted};

// Asks of a state in a fresh session of so many places, then once it is decided.
fn ask_twice<B: Book>(
    rt: &(impl Print + AllocGlobal),
    name: &str,
    book: &B,
    places: usize,
    s: B::State,
) -> anyhow::Result<()> {
    let mut states = vec![in rt.alloc(); s; places]?;
    let mut rows = vec![in rt.alloc(); BLANK; places]?;
    let mut session = Session::new(book, &mut states, &mut rows);
    let before = Asked(session.ask(book, s));
    let told = Told(session.work(book, 100));
    let after = Asked(session.ask(book, s));
    println!(rt; "{name}, N = {places}: {before} when fresh, {after} when {told}.")?;
    Ok(())
}

// Asks of a cell where the example fits, where it does not, and where there is no place.
fn ask_cell(rt: &(impl Print + AllocGlobal), name: &str, cell: u64) -> anyhow::Result<()> {
    let book = KnowledgeBook::read(patch())?;
    for places in [4, 2, 0] {
        ask_twice(rt, name, &book, places, cell)?;
    }
    Ok(())
}

// Asks of a spot where the table fits, and where it does not.
fn ask_spot(rt: &(impl Print + AllocGlobal), name: &str, spot: Spot) -> anyhow::Result<()> {
    let wanted = slip_wanted();
    let moves = slip_rows();
    let book = table(&wanted, &moves)?;
    for places in [2, 1] {
        ask_twice(rt, name, &book, places, spot)?;
    }
    Ok(())
}

// Masks and spots that no list holds, and one of each that is listed.
pub(crate) fn report(rt: &(impl Print + AllocGlobal)) -> anyhow::Result<()> {
    ask_cell(rt, "Mask 0", 0)?;
    ask_cell(rt, "Mask 16 of two features", 16)?;
    ask_cell(rt, "Mask 19 of two features", 19)?;
    ask_cell(rt, "Mask 2", 2)?;
    ask_spot(rt, "Zone 64", Spot { zone: 64, level: 0 })?;
    ask_spot(rt, "Level 64", Spot { zone: 0, level: 64 })?;
    ask_spot(rt, "Level 1 of zone 0", Spot { zone: 0, level: 1 })
}
