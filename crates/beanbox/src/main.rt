// Reads a heat file from standard input, and prints the box that is found for it or why it is refused.
#![tactic(auto)]

use file_box::file::report_file;
use std::io::{Read, Write};

// A byte more than a file may have, so that a longer one is seen to be too long.
const READ: u64 = 65_536;

// Room for 32 nodes with any ends.
const REPORT: usize = 2_048;

fn main(rt: HostRuntime) -> anyhow::Result<()> {
    let mut file = Vec::new(rt.alloc());
    rt.stdin().take(READ).read_to_end(&mut file)?;
    let mut report = [0; REPORT];
    let length = report_file(&file, &mut report)?;
    rt.stdout().write_all(&report[..length])?;
    Ok(())
}
