//! Knowledge books: cells of valuations, and acts whose events tell the agent something and change features.

#![tactic(auto)]

mod book;
mod cell;
mod event;
mod formula;
mod moves;
mod update;

pub use book::KnowledgeBook;
pub use cell::has;
pub use formula::evaluate;
pub use moves::Move;
