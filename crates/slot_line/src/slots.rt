//! The memory of a slot line, and which slots of it are used.
pub mod calls;
pub mod making;

use ring::Ring;
use std::marker::Model;

/// A line over slots: the slots, end to end, the length of the frame in each, and which of them are used.
// Two slices, since the caller lends them so: a store of octets, and a table of lengths.
#[derive(Drop, Debug)]
pub struct SlotLine<'a> {
    store: &'a mut [u8],
    lengths: &'a mut [u16],
    ring: Ring,
}

impl<'a> Model for SlotLine<'a> {
    ghost use Rattle.slot_line.specs.Slots.{Slots, IsSlotLine};

    ghost Value = { Slots };

    ghost view = { λ s. record { store = s.store.now; lengths = s.lengths.now; ring = s.ring } };

    ghost invariant = { λ s. IsSlotLine (record { store = s.store.now; lengths = s.lengths.now; ring = s.ring }) };
}
