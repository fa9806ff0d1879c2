//! What a line refuses.
ghost use Rattle.line.specs.Fault.{line_fault};

use refusal::{Fault, Layer};
use thiserror::Error;

/// Why a line, or the making of one, refuses, and under which number.
#[derive(Clone, Copy, PartialEq, Eq, Debug, Error)]
pub enum LineFault {
    /// A frame of fewer than 5 or more than 2,048 octets.
    #[error("a frame has 5 to 2,048 octets")]
    FrameSize = 1,
    /// As many frames wait as the limit.
    #[error("as many frames wait as the line's limit")]
    Full = 17,
    /// A buffer of fewer than 2,048 octets, or memory of another size than the line is made over.
    #[error("a buffer or the line's memory has the wrong size")]
    Memory = 18,
    /// A limit that is not 1 to 4,096.
    #[error("a line's limit is 1 to 4,096")]
    Limit = 19,
}

impl Fault for LineFault {
    ghost told = { line_fault };

    fn number(&self) -> u8 {
        *self as u8
    }

    fn layer(&self) -> Layer {
        Layer::Line
    }

    fn octet(&self) -> usize {
        0
    }
}
