//! Prints what `layplan` prints for each sheet of a collection. The sheets' names are the lines of standard input, and
//! each sheet lies in a file of its name.

#![tactic(auto)]

use printout::print_sheet;
use std::fs;
use std::io::Write;

// The printout of one sheet, under its name.
fn show(rt: &HostRuntime, name: &str) -> anyhow::Result<()> {
    let path = format!(in rt.alloc(); "{name}.sheet")?;
    let sheet = fs::read(rt, &path)?;
    let printout = print_sheet(rt.alloc(), &sheet)?;
    println!(rt; "== {name}")?;
    rt.stdout().write_all(printout.text())?;
    Ok(())
}

fn main(rt: HostRuntime) -> anyhow::Result<()> {
    for line in rt.lines(rt.alloc()) {
        show(&rt, &line?)?;
    }
    Ok(())
}
