//! Prints the report of each recording in data/, in the order of the names that it is given.
//! What it must print was worked out by hand.
#![tactic(auto)]

use anyhow::anyhow;
use report::PAGE;
use std::io::Write;
use std::{env, fs};

fn main(rt: HostRuntime) -> anyhow::Result<()> {
    run(&rt)
}

fn run(rt: &HostRuntime) -> anyhow::Result<()> {
    for name in env::args(rt)?.skip(1) {
        tell(rt, name.as_str())?;
    }
    Ok(())
}

/// The recording's name as a title, and then its report.
fn tell(rt: &HostRuntime, name: &str) -> anyhow::Result<()> {
    let path = format!(in rt.alloc(); "{name}.txt")?;
    let bytes = fs::read(rt, path.as_str())?;
    let mut page = [b' '; PAGE];
    // A `Denial` is no `Error`, so `?` alone cannot hand it up.
    let length = report::check_recording(bytes.as_slice(), &mut page).map_err(|_| anyhow!(
        "the page is too short"
    ))?;
    println!(rt; "# {name}")?;
    rt.stdout().write_all(&page[..length])?;
    Ok(())
}
