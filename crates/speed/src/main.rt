//! Times two searches, run by hand as `speed run` with a sheet on standard input. Without that word it only says so.

#![tactic(auto)]

use anyhow::anyhow;
use knowledge::KnowledgeBook;
use planning::Book;
use session::{BLANK, PLACES, Session};
use sheets::ENOUGH;
use std::fs::Files;
use std::io::{Input, Read};
use std::time::{Clock, Instant};
use std::{env, fs};
use tables::MoveTable;
use worked::{ORIGIN, chain, spot, wanted_from};

// Works to the end of a search over the book, and prints its pace.
fn time<B: Book>(
    rt: &(impl Clock + Print + AllocGlobal),
    name: &str,
    book: &B,
) -> anyhow::Result<()> {
    let mut states = vec![in rt.alloc(); book.start(); PLACES]?;
    let mut rows = vec![in rt.alloc(); BLANK; PLACES]?;
    let begun = Instant::now(rt)?;
    let mut session = Session::new(book, &mut states, &mut rows);
    let units = u128::from(session.work(book, u32::MAX).units);
    let micros = begun.elapsed(rt)?.as_micros().max(1);
    let pace = units.saturating_mul(1_000_000) / micros;
    println!(rt; "{name}: {units} units in {micros} microseconds, {pace} units per second")?;
    Ok(())
}

// A chain through all spots, of which the last alone is a goal.
fn time_table(rt: &(impl Clock + Print + AllocGlobal)) -> anyhow::Result<()> {
    let moves = PLACES - 1;
    let rows = chain(rt.alloc(), moves)?;
    let wanted = wanted_from(spot(moves));
    let table = MoveTable::new(1, ORIGIN, &wanted, &rows)?;
    time(rt, "table of 4,096 spots", &table)
}

// The knowledge book of the sheet on standard input.
fn time_sheet(rt: &(impl Input + Clock + Print + AllocGlobal)) -> anyhow::Result<()> {
    let mut sheet = Vec::new(rt.alloc());
    rt.reader().take(ENOUGH).read_to_end(&mut sheet)?;
    let book = KnowledgeBook::read(&sheet).map_err(|_| anyhow!("the sheet is refused"))?;
    time(rt, "knowledge book", &book)
}

// The machine, as the system names its processor.
fn name_machine(rt: &(impl Files + Print + AllocGlobal)) -> anyhow::Result<()> {
    let told = fs::read_to_string(rt, "/proc/cpuinfo")?;
    if let Some(line) = told.lines().find(|line| line.starts_with("model name")) {
        println!(rt; "{line}")?;
    }
    Ok(())
}

fn run(rt: &(impl Files + Input + Clock + Print + AllocGlobal)) -> anyhow::Result<()> {
    name_machine(rt)?;
    time_sheet(rt)?;
    time_table(rt)
}

fn main(rt: HostRuntime) -> anyhow::Result<()> {
    if env::args(&rt)?.any(|word| word.as_str() == "run") {
        return run(&rt);
    }
    println!(rt; "speed run: times the sheet on standard input and a table of 4,096 spots")?;
    Ok(())
}
