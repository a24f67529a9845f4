//! Reads a recording from standard input and writes what came of it to standard output.
#![tactic(auto)]

use anyhow::anyhow;
use event::Denial;
use recording::Recording;
use report::{INPUT, PAGE};
use std::io::{Read, Write};

fn main(rt: HostRuntime) -> anyhow::Result<()> {
    run(&rt)
}

fn run(rt: &HostRuntime) -> anyhow::Result<()> {
    let mut bytes = Vec::new(rt.alloc());
    rt.stdin().take(INPUT).read_to_end(&mut bytes)?;
    match recording::read(bytes.as_slice()) {
        Ok(recording) => judge(rt, &recording),
        Err(fault) => deny(rt, fault.denial, fault.line, fault.column),
    }
}

/// The plain line that tells the verdict.
fn judge(rt: &HostRuntime, recording: &Recording) -> anyhow::Result<()> {
    let mut sheet = [0u16; 1280];
    match report::judge_recording(recording, &mut sheet) {
        Ok(verdict) => println!(rt; "{verdict}")?,
        Err(denial) => deny(rt, denial, 0, denial.position())?,
    }
    Ok(())
}

/// The line that tells why a recording is denied; line 0 where no line is at fault.
fn deny(rt: &HostRuntime, denial: Denial, line: usize, place: u8) -> anyhow::Result<()> {
    let mut page = [b' '; PAGE];
    // A `Denial` is no `Error`, so `?` alone cannot hand it up.
    let length = report::denial_line(
        usize::from(denial.number()),
        line,
        usize::from(place),
        &mut page,
    )
    .map_err(|_| anyhow!("the denial line was denied"))?;
    rt.stdout().write_all(&page[..length])?;
    Ok(())
}
