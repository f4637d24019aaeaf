//! Small move tables.

use crate::words::tell_text;
use printout::print_plan;
use tables::{MoveTable, TableFault, TableRow};
use worked::{NEVER, ORIGIN, slip_rows, slip_wanted};

// A table of one act from the origin.
pub(crate) fn table<'a>(
    wanted: &'a [u8],
    rows: &'a [TableRow],
) -> Result<MoveTable<'a>, TableFault> {
    MoveTable::new(1, ORIGIN, wanted, rows)
}

// What is told of a table of these rows, in which nothing is wanted.
fn tell_count(rt: &(impl Print + AllocGlobal), rows: &[TableRow]) -> anyhow::Result<()> {
    let count = rows.len();
    match table(&NEVER, rows) {
        Ok(table) => {
            let text = print_plan(rt.alloc(), &table)?;
            let name = format!(in rt.alloc(); "A table with {count} outcomes, accepted")?;
            tell_text(rt, &name, &text)
        }
        Err(fault) => {
            // Not in the fault's own words, since its place here can only be a row.
            let number = fault.number();
            let row = fault.place();
            println!(rt; "A table with {count} outcomes: stop {number} at row {row}.")?;
            Ok(())
        }
    }
}

// An act that may do nothing, and acts with as many outcomes as there may be, and one more.
pub(crate) fn report(rt: &(impl Print + AllocGlobal)) -> anyhow::Result<()> {
    let wanted = slip_wanted();
    let rows = slip_rows();
    let text = print_plan(rt.alloc(), &table(&wanted, &rows)?)?;
    tell_text(
        rt,
        "An act from spot (0,0) to (0,0) or (0,1), wanted level 1",
        &text,
    )?;
    tell_count(rt, &[rows[0]; 8])?;
    tell_count(rt, &[rows[0]; 9])
}
