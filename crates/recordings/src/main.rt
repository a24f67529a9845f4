//! Reads many short recordings, each behind a title line that begins with '#', and tells what comes of each.
#![tactic(auto)]

use recording::Recording;
use report::Tally;
use std::io::{Read, Write};
use titled::{Recordings, Titled};
use verdict::Verdict;

/// How many numbers of an allowed graph's sheet are shown.
const SHOWN: usize = 16;

fn main(rt: HostRuntime) -> anyhow::Result<()> {
    run(&rt)
}

// As in `corpus`: it reads into a `Vec`, and no library owns heap.
fn run(rt: &HostRuntime) -> anyhow::Result<()> {
    let mut bytes = Vec::new(rt.alloc());
    rt.stdin().read_to_end(&mut bytes)?;
    for Titled { title, recording } in Recordings::of(bytes.as_slice()) {
        rt.stdout().write_all(title)?;
        tell(rt, recording)?;
    }
    Ok(())
}

/// What was read and how it is judged, or the first fault.
fn tell(rt: &HostRuntime, recorded: &[u8]) -> anyhow::Result<()> {
    match recording::read(recorded) {
        Ok(recording) => {
            let tally = Tally::of(recording.graph.graph());
            println!(rt; "{tally}")?;
            judge(rt, &recording)
        }
        Err(fault) => {
            let number = fault.denial.number();
            println!(rt;
                "denial {number}, line {}, column {}",
                fault.line, fault.column
            )?;
            Ok(())
        }
    }
}

/// The verdict, and what the sheet then holds at its start.
// Not by Display, which would tell a cycle's length: the numbers shown tell it.
fn judge(rt: &HostRuntime, recording: &Recording) -> anyhow::Result<()> {
    let mut sheet = [999u16; 1280];
    match report::judge_recording(recording, &mut sheet) {
        Ok(Verdict::Allowed) => {
            println!(rt; "allowed")?;
            show(rt, &sheet, SHOWN)
        }
        Ok(Verdict::Cycle { order, length }) => {
            println!(rt; "forbidden: order {order}")?;
            show(rt, &sheet, length as usize)
        }
        Ok(Verdict::NoPlacement) => {
            println!(rt; "forbidden at every placement")?;
            Ok(())
        }
        Err(denial) => {
            let number = denial.number();
            let place = denial.position();
            println!(rt; "denial {number}, place {place}")?;
            Ok(())
        }
    }
}

/// The first numbers of a sheet, on a line.
fn show(rt: &HostRuntime, sheet: &[u16], count: usize) -> anyhow::Result<()> {
    print!(rt; "shown:")?;
    for event in sheet.iter().take(count) {
        print!(rt; " {event}")?;
    }
    println!(rt; "")?;
    Ok(())
}
