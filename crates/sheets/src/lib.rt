//! Sheets of knowledge: formulas and events as bytes, the sections of a sheet, and reading a sheet or refusing it with a
//! number, a section and a place.

#![tactic(auto)]

mod event;
mod fault;
mod formula;
mod reader;
mod section;
mod sheet;

pub use event::{Event, Events, first_event};
pub use fault::{FormulaFault, SectionFault, SheetFault};
pub use formula::{arity, check_formula};
pub use reader::{Reader, Section};
pub use sheet::{ENOUGH, Sheet};
