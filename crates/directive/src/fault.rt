//! What the layer of supervisory units refuses.
ghost use Rattle.std.specs.Prelude.{◌≡◌, ◌+◌, ◌^◌, ◌<◌};
ghost use Rattle.directive.specs.Fault.{moved, spdu_fault};

use refusal::{Fault, Layer};
use thiserror::Error;

/// Why octets are no supervisory unit, or why one cannot be written. Octets count from 0 in the unit.
#[derive(Clone, Copy, PartialEq, Eq, Debug, Error)]
pub enum SpduFault {
    /// Empty, or of wrong length.
    #[error("the unit is empty or of wrong length")]
    Length,
    /// A reserved kind of unit.
    #[error("the kind of unit is reserved")]
    Kind,
    /// The data field ends inside the directive that starts at this octet.
    #[error("the data field ends inside a directive")]
    Cut(usize),
    /// A reserved name or code, or a spare bit that is set, in the field that starts at this octet.
    #[error("a name or a code is reserved, or a spare bit is set")]
    Reserved(usize),
    /// A symbol rate or a frequency out of range, in the field that starts at this octet.
    #[error("a symbol rate or a frequency is out of range")]
    Range(usize),
    /// A value is wider than its field.
    #[error("a value is wider than its field")]
    TooWide,
    /// The buffer is too small.
    #[error("the buffer is too small")]
    Buffer,
}

impl SpduFault {
    /// The same fault in a unit of which the octets that were read start at this octet.
    pub(crate) fn moved(self, start: usize) -> SpduFault
        requires { (spdu_fault self).octet + start < 2 ^ 64 }
        ensures { result ≡ moved start self }
    {
        match self {
            SpduFault::Cut(at) => SpduFault::Cut(start + at),
            SpduFault::Reserved(at) => SpduFault::Reserved(start + at),
            SpduFault::Range(at) => SpduFault::Range(start + at),
            SpduFault::Length | SpduFault::Kind | SpduFault::TooWide | SpduFault::Buffer => self,
        }
    }
}

impl Fault for SpduFault {
    ghost told = { spdu_fault };

    // By a match, since cases that hold an octet take no number of their own.
    fn number(&self) -> u8 {
        match self {
            SpduFault::Length => 6,
            SpduFault::Kind => 7,
            SpduFault::Cut(_) => 8,
            SpduFault::Reserved(_) => 9,
            SpduFault::Range(_) => 10,
            SpduFault::TooWide => 15,
            SpduFault::Buffer => 18,
        }
    }

    fn layer(&self) -> Layer {
        Layer::Spdu
    }

    fn octet(&self) -> usize {
        match self {
            SpduFault::Cut(at) | SpduFault::Reserved(at) | SpduFault::Range(at) => *at,
            SpduFault::Length | SpduFault::Kind | SpduFault::TooWide | SpduFault::Buffer => 0,
        }
    }
}
