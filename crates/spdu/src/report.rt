//! The report of a receiver (PLCW).
ghost use Rattle.std.specs.Prelude.{◌≡◌, take, IfOk, Ok};
ghost use Rattle.bits.specs.Codec.{write_answer, written};
ghost use Rattle.bits.specs.Layout.{cut};
ghost use Rattle.spdu.specs.Report.{encoded_report, read_report, report_fits, report_layout, report_with, report_word};
ghost use Rattle.directive.specs.declared.fault.SpduFault.TheVariants.{Buffer};

use bits::{Encode, assemble, field, is_set, word};
use directive::fault::SpduFault;
use directive::packed::{Packed, write_packed};
use std::fmt;

/// How many octets a report has.
const OCTETS: usize = 2;

/// What a receiver tells of the sequence-controlled frames that it holds.
#[derive(Clone, Copy, PartialEq, Eq, Debug)]
pub struct Report {
    /// A frame is missing, and the sender is to start again with it.
    pub retransmit: bool,
    /// The physical channel, 1 bit.
    pub channel: u8,
    /// The counter of expedited frames, 3 bits.
    pub counter: u8,
    /// The frame number that is wanted next.
    pub value: u8,
}

// The report with these sixteen bits.
fn report_of(word: u128) -> Result<Report, SpduFault>
    ensures { result ≡ report_with (cut report_layout word) }
{
    if is_set(word, 11) {
        return Err(SpduFault::Reserved(0));
    }
    Ok(Report {
        retransmit: is_set(word, 13),
        channel: field(word, 12, 1) as u8,
        counter: field(word, 8, 3) as u8,
        value: field(word, 0, 8) as u8,
    })
}

impl Packed for Report {
    ghost fits = { report_fits };

    ghost word = { report_word };

    ghost size = { λ _. 2 };

    ghost read = { read_report };

    fn word(self) -> Option<u128> {
        assemble(&[
            (2, 2),
            (1, u128::from(self.retransmit)),
            (1, u128::from(self.channel)),
            (1, 0),
            (3, u128::from(self.counter)),
            (8, u128::from(self.value)),
        ])
    }

    fn size(self) -> usize {
        OCTETS
    }

    fn read(octets: &[u8]) -> Result<Self, SpduFault> {
        read_report(octets)
    }
}

impl Encode for Report {
    type Fault = SpduFault;

    ghost encoded = { encoded_report };

    ghost no_room = { Buffer };

    // A call of its own does the work, since it promises more: that reading undoes it.
    fn write(self, buffer: &mut [u8]) -> Result<usize, SpduFault> {
        write_report(self, buffer)
    }
}

/// The report that these octets are.
pub fn read_report(octets: &[u8]) -> Result<Report, SpduFault>
    ensures answer { result ≡ read_report octets.now }
    ensures undone { IfOk result (λ p. encoded_report p ≡ Ok octets.now) }
{
    let [first, rest @ ..] = octets else {
        return Err(SpduFault::Length);
    };
    if first >> 6 != 2 {
        return Err(SpduFault::Kind);
    }
    let [second] = rest else {
        return Err(SpduFault::Length);
    };
    report_of(word(&[*first, *second]))
}

/// Puts the octets of a report first into the buffer, and answers how many they are. The rest of the buffer stays.
pub fn write_report(report: Report, buffer: &mut [u8]) -> Result<usize, SpduFault>
    ensures answer { result ≡ write_answer SpduFault.Buffer (encoded_report report) buffer.old }
    ensures after { buffer.new ≡ written (encoded_report report) buffer.old }
    ensures undone { IfOk result (λ n. read_report (take n buffer.new) ≡ Ok report) }
{
    write_packed(report, buffer)
}

impl fmt::Display for Report {
    fn fmt<W: fmt::Write>(&self, f: &mut fmt::Formatter<W>) -> fmt::Result {
        let retransmit = if self.retransmit { "set" } else { "clear" };
        let channel = self.channel;
        let counter = self.counter;
        let value = self.value;
        write!(
            f,
            "retransmit {retransmit}, channel {channel}, counter {counter}, value {value}"
        )
    }
}
