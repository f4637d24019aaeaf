//! Sheets that differ from the example in one thing, and formulas at its start.

use crate::words::tell_text;
use knowledge::{KnowledgeBook, evaluate};
use planning::Book;
use printout::print_sheet;
use std::io;
use worked::{patch, patch_half_seen, patch_mended, patch_unseen};

// What comes before a goal of two bytes in the example.
const BEFORE_GOAL: &[u8] = b"\x02\x03\
    \x16\0\x08\0\x1e\0\x02\0\x20\0\x0b\0\x2b\0\x05\0\x30\0\x06\0\
    \x03\0\0\0\0\0\0\0";

// The acts of the example, which come after its goal.
const AFTER_GOAL: &[u8] = b"\0\0\0\x01a\x01\0\0\x02!a\
    \0\x02\x01\x01a\
    \0\x02\0\x02!a";

// What is printed of a sheet.
fn tell_sheet(rt: &(impl Print + AllocGlobal), name: &str, sheet: &[u8]) -> anyhow::Result<()> {
    let printout = print_sheet(rt.alloc(), sheet)?;
    tell_text(rt, name, printout.text())
}

// What is printed of the example with another goal, of two bytes.
fn tell_goal(rt: &(impl Print + AllocGlobal), goal: &str) -> anyhow::Result<()> {
    let name = format!(in rt.alloc(); "Goal {goal}")?;
    let mut sheet = Vec::new(rt.alloc());
    for part in [BEFORE_GOAL, goal.as_bytes(), AFTER_GOAL] {
        sheet.extend_from_slice(part)?;
    }
    tell_sheet(rt, &name, &sheet)
}

// Where a formula holds in the cell of the valuations without b.
fn tell_formula(rt: &impl Print, text: &str) -> io::Result<()> {
    let (mask, _) = evaluate(3, 2, text.as_bytes());
    println!(rt; "In cell 3 {text} holds at the valuations of mask {mask}.")
}

// Whether an act has an outcome in the start.
fn tell_act(rt: &impl Print, name: &str, sheet: &[u8], act: u8) -> anyhow::Result<()> {
    let book = KnowledgeBook::read(sheet)?;
    let applicable = if book.outcome(book.start(), act, 0).is_some() {
        "applicable"
    } else {
        "not applicable"
    };
    println!(rt; "{name} is {applicable} in cell 3.")?;
    Ok(())
}

// Formulas, goals that are wrong, and sheets with less than the example.
pub(crate) fn report(rt: &(impl Print + AllocGlobal)) -> anyhow::Result<()> {
    for formula in ["Ka", "Ma"] {
        tell_formula(rt, formula)?;
    }
    for goal in ["&a", "ab", "Kb"] {
        tell_goal(rt, goal)?;
    }
    tell_act(rt, "Look", patch(), 0)?;
    tell_act(rt, "Look with only its event a", patch_half_seen(), 0)?;
    tell_sheet(rt, "With only that event", patch_half_seen())?;
    tell_sheet(rt, "Without look", patch_unseen())?;
    tell_sheet(rt, "A start that is a goal, no acts", patch_mended())
}
