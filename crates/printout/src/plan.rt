//! The lines of a plan.

ghost use Rattle.std.specs.Prelude.{◌≡◌, ℕ, ◌++◌, IfOk, OnOk};
ghost use Rattle.session.specs.Calls.{Stands};
ghost use Rattle.session.specs.Views.{places, view};
ghost use Rattle.lines.specs.Words.{line_text};
ghost use Rattle.printout.specs.Plans.{all_lines, plan_text};

use lines::line;
use planning::Book;
use session::{BLANK, PLACES, Session};
use std::alloc::{AllocError, Global};

/// All lines of a book's plan, searched for in 4,096 places.
pub fn print_plan<B: Book>(heap: Global, book: &B) -> Result<Vec<u8>, AllocError>
    ensures { IfOk result (λ t. t.items ≡ plan_text (B.meaning book.now)) }
{
    let mut states = vec![in heap; book.start(); PLACES]?;
    let mut rows = vec![in heap; BLANK; PLACES]?;
    let mut session = Session::new(book, &mut states, &mut rows);
    session.work(book, u32::MAX);
    session_lines(heap, book, &session)
}

// Every line of a session, one after the other.
fn session_lines<B: Book>(
    heap: Global,
    book: &B,
    session: &Session<'_, B::State>,
) -> Result<Vec<u8>, AllocError>
    ensures { IfOk result (λ t. ((u : ℕ) → Stands (B.meaning book.now) u (view session.now) → t.items ≡ all_lines (B.meaning book.now) (places (view session.now)) u)) }
{
    let mut text = Vec::new(heap);
    // By number, since the number says which line it is.
    for index in 0..=session.states().len() {
        add_line(&mut text, book, session, index)?;
    }
    Ok(text)
}

// Adds a line at the end of the text.
fn add_line<B: Book>(
    text: &mut Vec<u8>,
    book: &B,
    session: &Session<'_, B::State>,
    index: usize,
) -> Result<(), AllocError>
    ensures { OnOk result (((u : ℕ) → Stands (B.meaning book.now) u (view session.now) → text.new.items ≡ text.old.items ++ line_text (B.meaning book.now) (places (view session.now)) u index)) }
{
    let mut buffer = [0; 64];
    // A line is refused only while the search works, and then there is none to add.
    if let Ok(n) = line(session, book, index, &mut buffer) {
        text.extend_from_slice(&buffer[..n])?;
    }
    Ok(())
}
