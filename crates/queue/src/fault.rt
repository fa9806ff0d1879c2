//! What a queue refuses.
ghost use Rattle.queue.specs.Fault.{queue_fault};

use refusal::{Fault, Layer};
use thiserror::Error;

/// Why a queue was not made, or was not changed.
#[derive(Clone, Copy, PartialEq, Eq, Debug, Error)]
pub enum QueueFault {
    /// No place of the table is free.
    #[error("the queue is full")]
    Full = 16,
    /// A table of no size that a queue can have, or of another size than the queue was made for.
    #[error("the table has not the size that the queue needs")]
    Table = 18,
}

impl Fault for QueueFault {
    ghost told = { queue_fault };

    fn number(&self) -> u8 {
        *self as u8
    }

    fn layer(&self) -> Layer {
        Layer::End
    }

    fn octet(&self) -> usize {
        0
    }
}
