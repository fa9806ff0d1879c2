//! The numbers of the receiving side.
use std::marker::Model;

/// The receiving machine (FARM-P) as plain numbers.
#[derive(Clone, Copy, PartialEq, Eq, Debug, Default)]
pub struct Receiver {
    /// V, the number of the sequence-controlled frame that is wanted next.
    pub wanted: u8,
    /// Whether a frame is missing, so that the sender has to start again with the one that is wanted.
    pub retransmit: bool,
    /// Whether a report is owed.
    pub owed: bool,
    /// How many expedited frames came, modulo 8.
    pub counter: u8,
}

// A clause sees a receiver as its fields.
impl Model for Receiver {
    ghost use Rattle.cop.specs.declared.receiver.Receiver.TheInside as inside;

    ghost Value = { inside.Inside };

    ghost use Rattle.cop.specs.Receiver.{IsReceiver};

    ghost view = { λ r. r };

    ghost invariant = { IsReceiver };

    ghost inverse = { λ r. r };
}
