//! Reads a recording from standard input and writes its report, or why it is denied, to standard output.
#![tactic(auto)]

use report::{INPUT, PAGE};
use std::io::{Read, Write};

fn main(rt: HostRuntime) -> anyhow::Result<()> {
    run(&rt)
}

fn run(rt: &HostRuntime) -> anyhow::Result<()> {
    let mut bytes = Vec::new(rt.alloc());
    rt.stdin().take(INPUT).read_to_end(&mut bytes)?;
    let mut page = [b' '; PAGE];
    // The page is as long as every report needs.
    let Ok(length) = report::check_recording(bytes.as_slice(), &mut page) else {
        unreachable()
    };
    rt.stdout().write_all(&page[..length])?;
    Ok(())
}
