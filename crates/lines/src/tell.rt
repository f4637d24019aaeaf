//! What each line says.

ghost use Rattle.std.specs.Prelude.{◌≡◌, ◌∷◌, map, Some, decimal};
ghost use Rattle.std.specs.List.{slice_get};
ghost use Rattle.session.specs.Views.{view};
ghost use Rattle.lines.specs.Texts.{clip, text};
ghost use Rattle.lines.specs.Words.{first_words, held_text, place_words, sentence};

use crate::text::Text;
use planning::{Book, Outcomes, find};
use session::{Progress, Row, Session, Standing};

// The line of a word and some numbers.
fn counts(word: &[u8], numbers: &[usize]) -> Text
    ensures { text result ≡ clip (sentence (word.now ∷ map decimal numbers.now)) }
{
    let mut text = Text::new();
    text.word(word);
    for &n in numbers {
        text.next(n);
    }
    text.word(b"\n");
    text
}

// The first line, of a search that lists so many states.
fn first_line(progress: Progress, listed: usize) -> Text
    ensures { text result ≡ clip (sentence (first_words progress.standing listed progress.units)) }
{
    let units = progress.units as usize;
    match progress.standing {
        Standing::Working => Text::new(),
        Standing::NoPlan => counts(b"none", &[listed, units]),
        Standing::Found(depth) => counts(b"found", &[usize::from(depth), listed, units]),
        Standing::Full(unit) => counts(b"full", &[unit as usize]),
    }
}

// The line of a state that is listed at place i with that row.
fn row_line<B: Book>(book: &B, states: &[B::State], i: usize, s: B::State, row: Row) -> Text
    ensures { text result ≡ clip (sentence (place_words (B.meaning book.now) states.now i (Some s) (Some row))) }
{
    let mut text = Text::new();
    text.number(i);
    text.next_or_blank(row.rank.map(usize::from));
    text.next_or_blank(row.act.map(usize::from));
    if let Some(act) = row.act {
        for o in Outcomes::new(book, s, act) {
            text.next_or_blank(find(book, states, o));
        }
    }
    text.word(b"\n");
    text
}

// The line of place i, or none where no state is listed there.
fn place_line<B: Book>(book: &B, states: &[B::State], rows: &[Row], i: usize) -> Text
    ensures { text result ≡ clip (sentence (place_words (B.meaning book.now) states.now i (slice_get states.now i) (slice_get rows.now i))) }
{
    match (states.get(i), rows.get(i)) {
        (Some(&s), Some(&row)) => row_line(book, states, i, s, row),
        _ => Text::new(),
    }
}

// The line of that index, as the session holds it.
pub(crate) fn told<B: Book>(session: &Session<'_, B::State>, book: &B, index: usize) -> Text
    ensures { text result ≡ clip (held_text (B.meaning book.now) (view session.now) index) }
{
    let progress = session.progress();
    let states = session.states();
    let Some(i) = index.checked_sub(1) else {
        return first_line(progress, states.len());
    };
    match progress.standing {
        Standing::NoPlan | Standing::Found(_) => place_line(book, states, session.rows(), i),
        Standing::Working | Standing::Full(_) => Text::new(),
    }
}
