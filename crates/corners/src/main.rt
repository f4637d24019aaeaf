//! Plans small books whose answers can be worked out by hand, tries the rules at their corners, and prints a report.

#![tactic(auto)]

mod asks;
mod chains;
mod example;
mod quotas;
mod spots;
mod variants;
mod words;

use worked::worked_cases;

fn main(rt: HostRuntime) -> anyhow::Result<()> {
    worked_cases();
    example::report(&rt)?;
    variants::report(&rt)?;
    quotas::report(&rt)?;
    asks::report(&rt)?;
    spots::report(&rt)?;
    chains::report(&rt)
}
