//! Walks along the plan of the sheet on standard input, on script and world benches, for every choice of two acts.

#![tactic(auto)]

mod tell;

use anyhow::anyhow;
use benches::ScriptBench;
use knowledge::KnowledgeBook;
use planning::Book;
use session::{Answer, BLANK, Bench, Call, replay};
use sheets::ENOUGH;
use std::io;
use std::io::Read;
use tell::tell;
use worlds::WorldBench;

// Work to the end, a start, and three steps.
const WHOLE_WALK: [Call<u64>; 5] = [
    Call::Work(u32::MAX),
    Call::Start(0),
    Call::Step(0),
    Call::Step(0),
    Call::Step(0),
];

// Plans in eight places, starts a walk at the first bench and steps three times, and tells what came of it.
fn walk<'a, K: Bench<KnowledgeBook<'a>>>(
    rt: &impl Print,
    book: &KnowledgeBook<'a>,
    benches: &mut [K],
) -> io::Result<()> {
    let mut states = [book.start(); 8];
    let mut rows = [BLANK; 8];
    let mut answers = [Answer::NoBench; 5];
    let made = replay(
        book,
        &mut states,
        &mut rows,
        &WHOLE_WALK,
        benches,
        &mut answers,
    );
    for answer in answers.iter().take(made) {
        tell(rt, *answer)?;
    }
    println!(rt)
}

// Every script of two choices among two, and one that runs out.
fn walk_scripts(rt: &impl Print, book: &KnowledgeBook<'_>) -> io::Result<()> {
    for first in 0..2 {
        for second in 0..2 {
            println!(rt; "script {first} {second}")?;
            walk(rt, book, &mut [ScriptBench::new(book, &[first, second])])?;
        }
    }
    println!(rt; "script 0")?;
    walk(rt, book, &mut [ScriptBench::new(book, &[0])])
}

// A world bench, if the valuation lies in the start cell.
fn walk_world(
    rt: &impl Print,
    book: &KnowledgeBook<'_>,
    valuation: u8,
    choice: u8,
) -> io::Result<()> {
    println!(rt; "valuation {valuation}, byte {choice}")?;
    // Not by `?`: a refusal is what there is to tell.
    match WorldBench::new(book, valuation, choice) {
        Ok(bench) => walk(rt, book, &mut [bench]),
        Err(stop) => println!(rt; "{stop}\n"),
    }
}

// Every valuation of two features, and one from 64 up, each with two bytes.
fn walk_worlds(rt: &impl Print, book: &KnowledgeBook<'_>) -> io::Result<()> {
    for valuation in [0, 1, 2, 3, 64] {
        for choice in 0..2 {
            walk_world(rt, book, valuation, choice)?;
        }
    }
    Ok(())
}

fn main(rt: HostRuntime) -> anyhow::Result<()> {
    let mut sheet = Vec::new(rt.alloc());
    rt.stdin().take(ENOUGH).read_to_end(&mut sheet)?;
    let book = KnowledgeBook::read(&sheet).map_err(|_| anyhow!("the sheet is refused"))?;
    walk_scripts(&rt, &book)?;
    walk_worlds(&rt, &book)?;
    Ok(())
}
