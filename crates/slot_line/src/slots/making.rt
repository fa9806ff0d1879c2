//! The making of a slot line, in one call, or in two: one that tries, and one that makes what was granted.
ghost use Rattle.std.specs.Prelude.{◌≡◌, [], length, Ok};
ghost use Rattle.slot_line.specs.Slots.{empty_slots, made, making_answer, waiting_in};

use super::SlotLine;
use line::fault::LineFault;
use line::memory::try_memory;
use ring::Ring;

// The octet line's makings are like these, over memory of another shape: what they share is `try_memory`.
/// Tries what a slot line over so many octets and lengths asks, for a limit.
pub fn try_slots(octets: usize, lengths: usize, limit: usize) -> Result<(), LineFault>
    ensures { result ≡ making_answer octets lengths limit }
{
    if lengths != limit {
        return Err(LineFault::Memory);
    }
    try_memory(octets, 2048, limit)
}

/// An empty line over memory that `try_slots` has granted. The memory stays as it is.
pub fn make_slots<'a>(store: &'a mut [u8], lengths: &'a mut [u16], limit: usize) -> SlotLine<'a>
    requires { making_answer (length store.old) (length lengths.old) limit ≡ Ok tt }
    ensures waiting { waiting_in result ≡ record { frames = []; limit = limit } }
    ensures store { result.store ≡ store.old }
    ensures lengths { result.lengths ≡ lengths.old }
    ensures made { result ≡ empty_slots store.old lengths.old limit }
{
    SlotLine {
        store,
        lengths,
        ring: Ring::new(limit).unwrap(),
    }
}

impl<'a> SlotLine<'a> {
    /// An empty line over this memory, which stays as it is.
    pub fn new(
        store: &'a mut [u8],
        lengths: &'a mut [u16],
        limit: usize,
    ) -> Result<SlotLine<'a>, LineFault>
        ensures { result ≡ made store.old lengths.old limit }
    {
        try_slots(store.len(), lengths.len(), limit)?;
        Ok(make_slots(store, lengths, limit))
    }
}
