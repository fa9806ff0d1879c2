//! Reads a recording of frames from standard input and says what each line is, field by field, or why it is refused.
//!
//! The input is read in chunks of one size and each line is told of as it ends, so that memory grows neither with the
//! recording nor with a line.
#![tactic(auto)]

mod frames;
mod hexadecimal;
mod inspector;
mod names;
mod refusals;
mod totals;
mod units;

use inspector::Inspector;
use std::io;
use std::io::Read;

/// How many octets of the input are read at once.
const CHUNK: usize = 4096;

fn inspect_input(rt: &HostRuntime) -> io::Result<()> {
    let mut inspector = Inspector::new();
    let mut input = rt.stdin();
    let mut chunk = [0u8; CHUNK];
    // Nothing says that an input ends, so the turns are counted.
    for _ in 0..u64::MAX {
        let count = input.read(&mut chunk)?;
        if count == 0 {
            break;
        }
        for character in &chunk[0..count] {
            inspector.take(rt, *character)?;
        }
    }
    inspector.finish(rt)
}

fn main(rt: HostRuntime) -> io::Result<()> {
    inspect_input(&rt)
}
