//! The lines that tell how a search ended: one for the whole, and one for each place.

#![tactic(auto)]

ghost use Rattle.std.specs.Prelude.{Some};
ghost use Rattle.session.specs.Views.{view};
ghost use Rattle.lines.specs.Calls.{Printed};
ghost use Rattle.lines.specs.Stops.{line_stop_text};

mod tell;
mod text;

use planning::Book;
use session::{Session, Standing};
use std::error::Error;
use std::fmt;
use tell::told;
use text::ROOM;

/// Why a line was refused.
#[derive(Clone, Copy, Debug, PartialEq, Eq)]
pub enum LineStop {
    /// The buffer has fewer than 64 bytes.
    Short,
    /// The search has not ended.
    Working,
}

/// Says why, with the number of the refusal.
impl fmt::Display for LineStop {
    ghost output = { λ e. Some (line_stop_text e) };

    fn fmt<W: fmt::Write>(&self, f: &mut fmt::Formatter<W>) -> fmt::Result {
        f.write_str(match self {
            LineStop::Short => "the buffer is short: stop 18",
            LineStop::Working => "still working: stop 9",
        })
    }
}

impl Error for LineStop {}

/// Writes a line into the beginning of the buffer and answers its length; the bytes after it stay as they are.
///
/// Line 0 is `found D R units`, `none R units` or `full F`: the least depth of a strong plan, the number of listed
/// states, the units spent, the unit in which there was no place. Line i + 1 is place i: its number, the rank, the act
/// and the places of that act's outcomes; `-` stands for a blank rank or act, and no outcome follows a blank act. Single
/// spaces part the words, and a newline ends the line. Past the last place, and at full from line 1 on, a line is empty.
///
/// Refused where the buffer has fewer than 64 bytes, which is enough for any line, and then while the search works;
/// the buffer then stays as it is.
pub fn line<B: Book>(
    session: &Session<'_, B::State>,
    book: &B,
    index: usize,
    buffer: &mut [u8],
) -> Result<usize, LineStop>
    ensures { Printed (B.meaning book.now) index (view session.now) buffer.old result buffer.new }
{
    // A buffer of the caller's and a length, since nothing here allocates.
    if buffer.len() < ROOM {
        return Err(LineStop::Short);
    }
    if session.progress().standing == Standing::Working {
        return Err(LineStop::Working);
    }
    Ok(told(session, book, index).put(buffer))
}
