//! Reads a sheet on standard input and prints its plan, or where the sheet is wrong.

#![tactic(auto)]

#[cfg(test)]
mod tests;

use printout::print_sheet;
use sheets::ENOUGH;
use std::alloc::Global;
use std::io::{Read, Write};
use std::process::ExitCode;

// Reads a sheet and writes what there is to say of it, all at once; whether the sheet was accepted.
fn run<R: Read + Drop, W: Write>(heap: Global, input: R, output: &mut W) -> anyhow::Result<bool> {
    let mut sheet = Vec::new(heap);
    input.take(ENOUGH).read_to_end(&mut sheet)?;
    let printout = print_sheet(heap, &sheet)?;
    output.write_all(printout.text())?;
    Ok(printout.accepted())
}

fn main(rt: HostRuntime) -> anyhow::Result<ExitCode> {
    let accepted = run(rt.alloc(), rt.stdin(), &mut rt.stdout())?;
    Ok(if accepted {
        ExitCode::SUCCESS
    } else {
        ExitCode::FAILURE
    })
}
