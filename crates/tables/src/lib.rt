//! Move tables: books whose states are spots, a zone and a level each, and whose moves are the rows of a table.

#![tactic(auto)]

mod checking;
mod fault;
mod looking;
mod row;
mod spot;
mod table;
#[cfg(test)]
mod tests;

pub use fault::TableFault;
pub use row::TableRow;
pub use spot::Spot;
pub use table::MoveTable;
