//! Answers of a session's calls, in words.

use session::{Answer, Progress, Standing, Step};
use std::io;

/// Prints what a call answered.
pub(crate) fn tell(rt: &impl Print, answer: Answer) -> io::Result<()> {
    match answer {
        Answer::Worked(progress) => tell_progress(rt, progress),
        Answer::Asked(Ok(_)) => println!(rt; "the state is listed"),
        Answer::Asked(Err(stop)) => println!(rt; "{stop}"),
        Answer::Started(Ok(rank)) => println!(rt; "the walk starts at rank {rank}"),
        Answer::Started(Err(stop)) => println!(rt; "{stop}"),
        Answer::Stepped(Ok(Step::Goal)) => println!(rt; "the goal is reached"),
        Answer::Stepped(Ok(Step::Acted { act, rank })) => println!(rt;
            "act {act} leads to rank {rank}"
        ),
        Answer::Stepped(Err(stop)) => println!(rt; "{stop}"),
        Answer::NoBench => println!(rt; "there is no such bench"),
    }
}

// In words of its own: here a count of units is told, and in the report of `corners` the unit reached.
fn tell_progress(rt: &impl Print, progress: Progress) -> io::Result<()> {
    let units = progress.units;
    match progress.standing {
        Standing::Working => println!(rt; "working, {units} units spent"),
        Standing::NoPlan => println!(rt; "no plan, {units} units spent"),
        Standing::Found(depth) => println!(rt; "found {depth}, {units} units spent"),
        Standing::Full(unit) => println!(rt; "full at unit {unit}"),
    }
}
