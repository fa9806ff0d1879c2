//! The summary at the end.
use inspection::summary::Summary;
use std::io;

/// Prints the counts: of the refusals those that came.
pub(crate) fn print_totals(rt: &HostRuntime, summary: &Summary) -> io::Result<()> {
    let controlled = summary.controlled;
    let expedited = summary.expedited;
    let supervisory = summary.supervisory;
    println!(rt; "summary")?;
    println!(rt;
        "frames: {controlled} user sequence-controlled, {expedited} user expedited, {supervisory} supervisory"
    )?;
    for (number, count) in summary.refused.iter().enumerate() {
        if *count > 0 {
            println!(rt; "refused by {number}: {count}")?;
        }
    }
    let unreadable = summary.unreadable;
    println!(rt; "lines that are no octets: {unreadable}")
}
