//! Benches over any book.

#![tactic(auto)]

mod bench;
mod script;

pub use script::ScriptBench;
