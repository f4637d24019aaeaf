//! All that is printed of a sheet: one function from the sheet's bytes to the output's bytes.

#![tactic(auto)]

mod plan;

ghost use Rattle.std.specs.Prelude.{◌≡◌, IfOk};
ghost use Rattle.printout.specs.Printouts.{accepts, is_plan, printed, text_of};

use knowledge::KnowledgeBook;
pub use plan::print_plan;
use std::alloc::{AllocError, Global};

/// What is printed of a sheet.
#[derive(Drop)]
pub enum Printout {
    /// All lines of the plan of an accepted sheet.
    Plan(Vec<u8>),
    /// The line that says where a refused sheet is wrong.
    Stop(String),
}

impl Printout {
    /// The bytes to print.
    pub fn text(&self) -> &[u8]
        ensures { result.now ≡ text_of self.now }
    {
        match self {
            Printout::Plan(text) => text,
            Printout::Stop(line) => line.as_bytes(),
        }
    }

    /// Whether the sheet was accepted.
    pub fn accepted(&self) -> bool
        ensures { result ≡ is_plan self.now }
    {
        matches!(self, Printout::Plan(_))
    }
}

/// All lines of the plan of an accepted sheet, searched for in 4,096 places, or the line that says where the sheet is
/// wrong: `stop`, the fault's number, its section and its place.
#[tactic(auto, unfolding(crate::specs::Printouts::printed, crate::specs::Printouts::accepts, crate::specs::Printouts::stop_text))]
pub fn print_sheet(heap: Global, bytes: &[u8]) -> Result<Printout, AllocError>
    ensures text { IfOk result (λ p. text_of p ≡ printed bytes.now) }
    ensures accepted { IfOk result (λ p. is_plan p ≡ accepts bytes.now) }
{
    // Not by `?`: a refusal is printed here, and is no refusal of this call.
    match KnowledgeBook::read(bytes) {
        Ok(book) => print_plan(heap, &book).map(Printout::Plan),
        Err(fault) => format!(in heap; "{fault}\n").map(Printout::Stop),
    }
}
