//! The plan of the example.

use crate::words::{Asked, Told};
use knowledge::KnowledgeBook;
use printout::print_sheet;
use session::{BLANK, Row, Session};
use std::io;
use std::io::Write;
use worked::patch;

// The act that a row tells, by its name in the example.
fn name_of(row: Row) -> &'static str {
    match row.act {
        Some(0) => "look",
        Some(1) => "unfold",
        Some(2) => "smooth",
        _ => "no act",
    }
}

// The plan of the example, place by place.
fn plan(rt: &impl Print) -> anyhow::Result<()> {
    let book = KnowledgeBook::read(patch())?;
    let mut states = [0; 8];
    let mut rows = [BLANK; 8];
    let mut session = Session::new(&book, &mut states, &mut rows);
    let told = Told(session.work(&book, 1000));
    println!(rt; "The example: {told}.")?;
    for (place, &cell) in session.states().iter().enumerate() {
        let row = session.ask(&book, cell)?;
        let act = name_of(row);
        let asked = Asked(Ok(row));
        println!(rt; "  Place {place}, cell {cell}: {asked}, {act}.")?;
    }
    Ok(())
}

// Plans the example from its bytes.
pub(crate) fn report(rt: &(impl Print + AllocGlobal)) -> anyhow::Result<()> {
    plan(rt)?;
    println!(rt; "Its lines:")?;
    let printout = print_sheet(rt.alloc(), patch())?;
    io::writer(rt).write_all(printout.text())?;
    Ok(())
}
