//! What is kept from one character of the recording to the next.
use super::frames::print_frame;
use super::totals::print_totals;
use inspection::summary::Summary;
use recording::fault::TextFault;
use recording::reader::Reader;
use std::io;

/// The line under way, and what the lines before it held.
#[derive(Drop)]
pub struct Inspector {
    reader: Reader,
    /// The number of the line under way, from 1.
    line: u64,
    summary: Summary,
}

// Out of line, since what printing needs of the stack is else made ready at the end of every line.
#[inline(never)]
fn print_text_fault(rt: &HostRuntime, line: u64, fault: TextFault) -> io::Result<()> {
    println!(rt; "{line}: not a line of octets: {fault}")
}

impl Inspector {
    /// An inspector at the start of the first line.
    pub(crate) fn new() -> Inspector {
        Inspector {
            reader: Reader::new(),
            line: 1,
            summary: Summary::new(),
        }
    }

    /// Takes the next character of the recording, and tells of the line if it ends there.
    pub(crate) fn take(&mut self, rt: &HostRuntime, character: u8) -> io::Result<()> {
        if character == b'\n' {
            return self.end_line(rt);
        }
        self.reader.feed(character);
        Ok(())
    }

    // A line that holds nothing is passed over.
    fn end_line(&mut self, rt: &HostRuntime) -> io::Result<()> {
        let line = self.line;
        self.line = line.saturating_add(1);
        match self.reader.end_line() {
            Ok(0) => Ok(()),
            Ok(_) => print_frame(rt, line, self.reader.octets(), &mut self.summary),
            Err(fault) => {
                self.summary.count_unreadable();
                print_text_fault(rt, line, fault)
            }
        }
    }

    /// Ends the recording: the last line need not end in a line's end. One that has not begun holds nothing.
    pub(crate) fn finish(&mut self, rt: &HostRuntime) -> io::Result<()> {
        self.end_line(rt)?;
        print_totals(rt, &self.summary)
    }
}
