//! The numbers of the sending side.
use std::marker::Model;

/// The sending machine (FOP-P) as plain numbers. The sequence queue holds `count` units, of which the first `out` were
/// sent and not yet acknowledged.
#[derive(Clone, Copy, PartialEq, Eq, Debug)]
pub struct Sender {
    /// How many units the sequence queue holds.
    pub count: u16,
    /// The frame number of the oldest of them.
    pub base: u8,
    /// How many of them are out: sent, and not acknowledged.
    pub out: u8,
    /// The place in the queue of the next unit to send, 0 being the oldest.
    pub at: u8,
    /// How many units may be out, 1 to 127.
    pub window: u8,
    /// VE, the number of the next expedited frame.
    pub expedited: u8,
}

// A clause sees a sender as its fields.
impl Model for Sender {
    ghost use Rattle.cop.specs.declared.sender.Sender.TheInside as inside;

    ghost Value = { inside.Inside };

    ghost use Rattle.cop.specs.Sender.{IsSender};

    ghost view = { λ s. s };

    ghost invariant = { IsSender };

    ghost inverse = { λ s. s };
}
