//! Whole runs of calls, and the promise over them.

ghost use Rattle.std.specs.Prelude.{◌≡◌, min, length, take, drop};
ghost use Rattle.session.specs.Promise.{Promise};
ghost use Rattle.session.specs.Replays.{CallMade, Replay, posts_of};
ghost use Rattle.session.specs.Views.{SameLists, View, view};

use crate::bench::Bench;
use crate::calls::{Answer, Call};
use crate::lists::Session;
use crate::plain::Row;
use crate::work::begin;
use planning::Book;

impl<'a, S: Copy> Session<'a, S> {
    // Makes one call, start and step with the bench that it names, if there is one.
    fn call<B: Book<State = S>, K: Bench<B>>(
        &mut self,
        book: &B,
        call: Call<S>,
        benches: &mut [K],
    ) -> Answer
        ensures made { CallMade (B.meaning book.now) (posts_of K.stands (K.fit book.now) benches.old) (view self.old) call result (posts_of K.stands (K.fit book.now) benches.new) (view self.new) }
        ensures lent { SameLists self.old self.new }
    {
        match call {
            Call::Work(quota) => Answer::Worked(self.work(book, quota)),
            Call::Ask(s) => Answer::Asked(self.ask(book, s)),
            // Not by `map_or`: its closure would change the session, and its proof would read no plainer.
            Call::Start(k) => match benches.get(k) {
                Some(bench) => Answer::Started(self.start(book, bench)),
                None => Answer::NoBench,
            },
            // By its place, since a proof knows no element of a list once `get_mut` has lent one.
            Call::Step(k) => {
                if k < benches.len() {
                    Answer::Stepped(self.step(book, &mut benches[k]))
                } else {
                    Answer::NoBench
                }
            }
        }
    }
}

/// Makes a session over the two lists and makes the calls on it in order, refused ones included, each start and step
/// with the bench that it names by its number; where there is no such bench the answer says so, and no call is made.
/// The answer of each call is written to its place in `answers`: as many of the calls are made as there are places for
/// answers, and their number is returned. The two lists then hold what the session left in them.
///
/// Its contract holds the promise over whole runs of calls, for every book and all benches.
pub fn replay<B: Book, K: Bench<B>>(
    book: &B,
    states: &mut [B::State],
    rows: &mut [Row],
    calls: &[Call<B::State>],
    benches: &mut [K],
    answers: &mut [Answer],
) -> usize
    ensures count { result ≡ min (length calls.now) (length answers.old) }
    ensures run { (v : View B.State) × (Replay (B.meaning book.now) states.old rows.old (posts_of K.stands (K.fit book.now) benches.old) (take result calls.now) (take result answers.new) (posts_of K.stands (K.fit book.now) benches.new) v × ((states.new ≡ v.states) × (rows.new ≡ v.rows))) }
    ensures unused { drop result answers.new ≡ drop result answers.old }
    ensures promise { Promise (B.meaning book.now) }
{
    // The calls, and beside them as many answers as there is room for: the lists are the caller's, and nothing allocates.
    let record = begin(book, states, rows);
    let mut session = Session {
        states,
        rows,
        record,
    };
    let count = calls.len().min(answers.len());
    // By places, since answers are written by place: of a list that `iter_mut` lends to `zip` a proof knows no element.
    for i in 0..count {
        answers[i] = session.call(book, calls[i], benches);
    }
    count
}
