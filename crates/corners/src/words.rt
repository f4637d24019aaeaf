//! Answers in words.

use itertools::Itertools;
use session::{AskStop, Progress, Row, Standing};
use std::fmt;

// Where a search stands, and the units that it has spent.
#[derive(Clone, Copy)]
pub(crate) struct Told(pub Progress);

impl fmt::Display for Told {
    fn fmt<W: fmt::Write>(&self, f: &mut fmt::Formatter<W>) -> fmt::Result {
        let units = self.0.units;
        match self.0.standing {
            Standing::Working => write!(f, "working at unit {units}"),
            Standing::NoPlan => write!(f, "none at unit {units}"),
            Standing::Found(depth) => write!(f, "found {depth} at unit {units}"),
            Standing::Full(unit) => write!(f, "full {unit} at unit {units}"),
        }
    }
}

// The answer of an ask.
#[derive(Clone, Copy)]
pub(crate) struct Asked(pub Result<Row, AskStop>);

impl fmt::Display for Asked {
    fn fmt<W: fmt::Write>(&self, f: &mut fmt::Formatter<W>) -> fmt::Result {
        match self.0 {
            Ok(row) => match (row.rank, row.act) {
                (Some(rank), Some(act)) => write!(f, "rank {rank} by act {act}"),
                (Some(rank), None) => write!(f, "rank {rank}"),
                _ => write!(f, "no rank"),
            },
            // The number alone, without the stop's words, since it stands in the middle of a sentence.
            Err(AskStop::Working) => write!(f, "stop 9"),
            Err(AskStop::Full) => write!(f, "stop 10"),
            Err(AskStop::Unlisted) => write!(f, "stop 11"),
        }
    }
}

// Prints a name and the lines of a text in one line, with strokes between them.
pub(crate) fn tell_text(
    rt: &(impl Print + AllocGlobal),
    name: &str,
    text: &[u8],
) -> anyhow::Result<()> {
    let lines = str::from_utf8(text)?.lines().join(rt.alloc(), " / ")?;
    println!(rt; "{name}: {lines}")?;
    Ok(())
}
