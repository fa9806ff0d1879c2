//! What is said of a line of octets.
use super::names::octets_name;
use super::refusals::print_refusal;
use super::units::print_unit;
use frame::frame::{Frame, read_frame};
use frame::header::{Header, Kind};
use inspection::rewriting::frame_is;
use inspection::summary::Summary;
use refusal::Fault;
use std::io;

fn print_header(rt: &HostRuntime, line: u64, frame: Frame<'_>) -> io::Result<()> {
    let Header {
        quality,
        kind,
        construction,
        id,
        channel,
        port,
        id_of,
        number,
    } = frame.header;
    let count = frame.payload.len();
    let octets = octets_name(count);
    print!(rt; "{line}: {kind} frame, {quality}, {construction}, id {id} of the {id_of}, ")?;
    println!(rt; "channel {channel}, port {port}, number {number}, {count} data {octets}")
}

fn print_rewritten(rt: &HostRuntime, frame: Frame<'_>, octets: &[u8]) -> io::Result<()> {
    if !frame_is(frame, octets) {
        return println!(rt; "   written again: DIFFERENT octets");
    }
    let count = octets.len();
    println!(rt; "   written again: the same {count} octets")
}

/// Prints what the octets of a line are, and counts it.
pub(crate) fn print_frame(
    rt: &HostRuntime,
    line: u64,
    octets: &[u8],
    summary: &mut Summary,
) -> io::Result<()> {
    let frame = match read_frame(octets) {
        Ok(frame) => frame,
        Err(fault) => {
            summary.count_refusal(fault.number());
            print!(rt; "{line}: ")?;
            return print_refusal(rt, &fault);
        }
    };
    summary.count_frame(frame.header.kind, frame.header.quality);
    print_header(rt, line, frame)?;
    print_rewritten(rt, frame, octets)?;
    if frame.header.kind == Kind::Supervisory {
        if let Err(fault) = print_unit(rt, frame.payload)? {
            summary.count_refusal(fault.number());
        }
    }
    Ok(())
}
