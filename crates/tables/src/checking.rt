//! The checks that a table has to pass.

ghost use Rattle.std.specs.Prelude.{◌≡◌, length};
ghost use Rattle.std.specs.Result.{result_err};
ghost use Rattle.tables.specs.Checking.{wrong_here};
ghost use Rattle.tables.specs.Places.{back};
ghost use Rattle.tables.specs.Tables.{first_wrong, levels_fit, table_fault, table_of};

use crate::fault::TableFault;
use crate::row::TableRow;
use crate::spot::Spot;

// How many acts a table may have.
pub(crate) const MOST_ACTS: u8 = 16;

// How many rows one spot and act may have.
pub(crate) const MOST_OUTCOMES: u8 = 8;

// How many rows a table may have.
const MOST_ROWS: usize = 32768;

// How many zones there are, each with its wanted level.
const ZONES: usize = 64;

// The highest wanted level, which no spot reaches.
const NEVER: u8 = 64;

// Passes a table that is well made; else the first fault, in the order of the cases.
pub(crate) fn check(
    acts: u8,
    start: Spot,
    wanted: &[u8],
    rows: &[TableRow],
) -> Result<(), TableFault>
    ensures { result_err result ≡ table_fault (table_of acts start wanted.now rows.now) }
{
    if acts > MOST_ACTS {
        return Err(TableFault::Acts);
    }
    if !start.within() {
        return Err(TableFault::Start);
    }
    if !levels_fit(wanted) {
        return Err(TableFault::Wanted);
    }
    if rows.len() > MOST_ROWS {
        return Err(TableFault::Rows);
    }
    // Both sides answer, so a match reads plainer than `map_or`.
    match first_wrong(acts, rows) {
        Some(i) => Err(TableFault::Row(i)),
        None => Ok(()),
    }
}

// Whether there are 64 levels, each at most 64.
fn levels_fit(wanted: &[u8]) -> bool
    ensures { result ≡ levels_fit wanted.now }
{
    wanted.len() == ZONES && wanted.iter().all(|level| *level <= NEVER)
}

// The place of the first wrong row.
fn first_wrong(acts: u8, rows: &[TableRow]) -> Option<usize>
    ensures { result ≡ first_wrong acts rows.now 0 (length rows.now) }
{
    // By places, since a row is judged beside those that stand one and eight places before it.
    (0..rows.len()).find(|i| is_wrong(acts, rows, *i))
}

// Whether the row at a place has a wrong field, falls below the row before it, or is the ninth of its spot and act: the
// row eight places before is one of them too.
fn is_wrong(acts: u8, rows: &[TableRow], i: usize) -> bool
    ensures { result ≡ wrong_here acts rows.now i }
{
    let Some(row) = rows.get(i) else {
        return false;
    };
    !row.fits(acts)
        || back(rows, 1, i).is_some_and(|last| row.key() < last.key())
        || back(rows, usize::from(MOST_OUTCOMES), i).is_some_and(|eighth| eighth.key() == row.key())
}

// What stands that many places before.
fn back(rows: &[TableRow], by: usize, i: usize) -> Option<TableRow>
    ensures { result ≡ back rows.now by i }
{
    rows.get(i.checked_sub(by)?).copied()
}
