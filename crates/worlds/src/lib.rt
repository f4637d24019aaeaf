//! World benches of knowledge books: one actual valuation in a cell, on which acts are carried out.

#![tactic(auto)]

mod bench;
mod stops;
#[cfg(test)]
mod tests;
mod world;

pub use stops::WorldStop;
pub use world::WorldBench;
