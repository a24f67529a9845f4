//! Checks many recordings, each behind a title line that begins with '#'. For each it prints the title, the first line
//! of the report and a digest of the whole report.
#![tactic(auto)]

use anyhow::anyhow;
use report::PAGE;
use std::io::{Read, Write};
use titled::{Recordings, Titled};

/// The bytes of a report's line, its newline left out.
const LINE: usize = 13;

fn main(rt: HostRuntime) -> anyhow::Result<()> {
    run(&rt)
}

// As in `recordings`: it reads into a `Vec`, and no library owns heap.
fn run(rt: &HostRuntime) -> anyhow::Result<()> {
    let mut bytes = Vec::new(rt.alloc());
    rt.stdin().read_to_end(&mut bytes)?;
    for Titled { title, recording } in Recordings::of(bytes.as_slice()) {
        rt.stdout().write_all(title)?;
        tell(rt, recording)?;
    }
    Ok(())
}

/// The first line of the report on a recording, and the report's digest.
fn tell(rt: &HostRuntime, recorded: &[u8]) -> anyhow::Result<()> {
    let mut page = [b' '; PAGE];
    // A `Denial` is no `Error`, so `?` alone cannot hand it up.
    let length = report::check_recording(recorded, &mut page).map_err(|_| anyhow!(
        "the page is too short"
    ))?;
    rt.stdout().write_all(&page[..LINE])?;
    let digest = digest_of(&page[..length]);
    println!(rt; " {digest:016x}")?;
    Ok(())
}

/// The 64-bit FNV-1a digest of some bytes.
fn digest_of(bytes: &[u8]) -> u64 {
    let mut digest = 0xcbf2_9ce4_8422_2325u64;
    for byte in bytes {
        digest = (digest ^ u64::from(*byte)).wrapping_mul(0x100000001b3);
    }
    digest
}
