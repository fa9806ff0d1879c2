//! The text of a refusal.
use refusal::Fault;
use std::fmt::Display;
use std::io;

/// Prints a refusal, to the end of its line.
pub(crate) fn print_refusal<F: Fault + Display>(rt: &HostRuntime, fault: &F) -> io::Result<()> {
    let number = fault.number();
    let layer = fault.layer();
    let octet = fault.octet();
    println!(rt; "refused by {number}, {layer} layer, octet {octet}: {fault}")
}
