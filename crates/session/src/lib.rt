//! A session searches for a strong plan over a book, unit by unit, in two lists that the caller lends.

#![tactic(auto)]

mod apart;
mod ask;
mod bench;
mod calls;
mod expand;
mod lists;
mod plain;
mod runs;
mod stops;
mod sweep;
mod walk;
mod work;

pub use bench::Bench;
pub use calls::{Answer, Call, Step};
pub use lists::{PLACES, Session};
pub use plain::{BLANK, Progress, Record, Row, Standing, Walk};
pub use runs::replay;
pub use stops::{AskStop, CarryStop, StartStop, StepStop};
