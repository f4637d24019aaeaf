//! The example searched in portions, and in few places.

use crate::words::Told;
use knowledge::KnowledgeBook;
use planning::Book;
use session::{BLANK, Session};
use worked::patch;

// More places than the example needs.
const MANY: usize = 8;

// Works for one quota after another, and tells where the search stands after each.
fn portions(rt: &(impl Print + AllocGlobal), places: usize, quotas: &[u32]) -> anyhow::Result<()> {
    let book = KnowledgeBook::read(patch())?;
    let mut states = vec![in rt.alloc(); book.start(); places]?;
    let mut rows = vec![in rt.alloc(); BLANK; places]?;
    let mut session = Session::new(&book, &mut states, &mut rows);
    let told = Told(session.progress());
    println!(rt; "The example, N = {places}: {told} when fresh.")?;
    for &quota in quotas {
        let told = Told(session.work(&book, quota));
        println!(rt; "  After a quota of {quota}: {told}.")?;
    }
    Ok(())
}

// Quotas that part the last unit from the others, and places that are just enough, too few, and none.
pub(crate) fn report(rt: &(impl Print + AllocGlobal)) -> anyhow::Result<()> {
    portions(rt, MANY, &[15, 0, 1])?;
    portions(rt, MANY, &[u32::MAX, u32::MAX])?;
    portions(rt, 4, &[100])?;
    portions(rt, 3, &[1, 1, 1])?;
    portions(rt, 2, &[1, 1])?;
    portions(rt, 0, &[0, 1])
}
