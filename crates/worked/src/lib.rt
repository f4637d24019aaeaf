//! Cases small enough to be worked out by hand: sheets byte by byte and a table row by row, and one theorem that
//! derives what is planned of them from the definitions.

#![tactic(auto)]

mod chains;
mod levels;
mod patches;
mod slip;
#[cfg(test)]
mod tests;
mod theorem;

pub use chains::{chain, spot};
pub use levels::{NEVER, ORIGIN, wanted_from};
pub use patches::{patch, patch_half_seen, patch_mended, patch_unseen};
pub use slip::{slip_rows, slip_wanted};
pub use theorem::worked_cases;
