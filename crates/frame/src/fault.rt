//! What the frame layer refuses.
ghost use Rattle.frame.specs.Fault.{frame_fault};

use refusal::{Fault, Layer};
use thiserror::Error;

/// Why octets are no frame, or why a frame cannot be written: each refusal by its number.
#[derive(Clone, Copy, PartialEq, Eq, Debug, Error)]
pub enum FrameFault {
    /// Fewer than 5 or more than 2,048 octets.
    #[error("a frame has 5 to 2,048 octets")]
    Size = 1,
    /// The version is not binary 10.
    #[error("the version is not binary 10")]
    Version = 2,
    /// The length field does not tell how many octets there are.
    #[error("the length field does not tell how many octets there are")]
    Length = 3,
    /// The data field has no octet.
    #[error("the data field has no octet")]
    NoData = 4,
    /// A reserved construction, or a supervisory frame that is not expedited or not of packets.
    #[error("the construction is reserved, or not one that the kind of frame allows")]
    Construction = 5,
    /// A value is wider than its field.
    #[error("a value is wider than its field")]
    TooWide = 15,
    /// The buffer is too small.
    #[error("the buffer is too small")]
    Buffer = 18,
}

impl Fault for FrameFault {
    ghost told = { frame_fault };

    fn number(&self) -> u8 {
        *self as u8
    }

    fn layer(&self) -> Layer {
        Layer::Frame
    }

    fn octet(&self) -> usize {
        match self {
            FrameFault::Length => 2,
            _ => 0,
        }
    }
}
