//! What queueing a unit refuses.
ghost use Rattle.std.specs.Prelude.{◌≡◌};
ghost use Rattle.unit.specs.Fault.{of_queue, unit_fault};

use queue::fault::QueueFault;
use refusal::{Fault, Layer};
use thiserror::Error;

/// Why a unit is not queued, or not copied out.
#[derive(Clone, Copy, PartialEq, Eq, Debug, Error)]
pub enum UnitFault {
    /// No octet or more than 2,043, or a port over 7.
    #[error("the unit has no octet, more than 2043, or a port over 7")]
    Unit = 15,
    /// Every place of the table is taken.
    #[error("the queue is full")]
    Full = 16,
    /// A table, a store or a buffer of the wrong size.
    #[error("a table, a store or a buffer has not the size that it needs")]
    Memory = 18,
}

impl From<QueueFault> for UnitFault {
    ghost from_gives = { λ q u. u ≡ of_queue q };

    fn from(fault: QueueFault) -> UnitFault {
        match fault {
            QueueFault::Full => UnitFault::Full,
            QueueFault::Table => UnitFault::Memory,
        }
    }
}

impl Fault for UnitFault {
    ghost told = { unit_fault };

    fn number(&self) -> u8 {
        *self as u8
    }

    fn layer(&self) -> Layer {
        Layer::End
    }

    fn octet(&self) -> usize {
        0
    }
}
