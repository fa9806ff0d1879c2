//! What a slot line does.
ghost use Rattle.std.specs.Prelude.{◌≡◌, ◌↔◌, false, IsNone, IfSome};
ghost use Rattle.line.specs.Line.{Counts, Puts, Takes};
ghost use Rattle.slot_line.specs.Slots.{IsSlotLine, SameMemory, lengths_after, slot, store_after, waiting_in};

use super::SlotLine;
use line::fault::LineFault;
use line::line::Line;
use line::memory::lay;
use line::transfer::admission;

impl<'a> SlotLine<'a> {
    // The oldest frame, if one waits.
    fn oldest(&self) -> Option<&[u8]>
        ensures none { IsNone result ↔ (self.now.ring.count ≡ 0) }
        ensures some { IfSome result (λ f. f.now ≡ slot self.now.store self.now.lengths self.now.ring.first) }
    {
        let ring = self.ring;
        if ring.count() == 0 {
            return None;
        }
        let slot = ring.first();
        let store = &*self.store;
        Some(&store[2048 * slot..2048 * slot + usize::from(self.lengths[slot])])
    }
}

// The octet line has the same steps, over other memory: what they share is `admission`, `lay` and the ring.
impl<'a> Line for SlotLine<'a> {
    ghost waiting = { waiting_in };

    ghost loses = { λ _ _ lost. lost ≡ false };

    #[tactic(auto, using(crate::proofs::Frames::slots_count))]
    fn put(&mut self, frame: &[u8]) -> Result<(), LineFault>
        ensures line { Puts (λ lost. lost ≡ false) (waiting_in self.old) (waiting_in self.new) frame.now result }
        ensures store { self.new.store ≡ store_after self.old frame.now }
        ensures lengths { self.new.lengths ≡ lengths_after self.old frame.now }
    {
        let ring = self.ring;
        admission(frame, ring.count() == ring.size())?;
        let slot = ring.index(ring.count());
        lay(self.store, 2048 * slot, frame);
        self.lengths[slot] = frame.len() as u16;
        self.ring = ring.longer(1);
        Ok(())
    }

    fn take(&mut self, buffer: &mut [u8]) -> Result<Option<usize>, LineFault>
        ensures line { Takes (waiting_in self.old) (waiting_in self.new) buffer.old buffer.new result }
        ensures memory { SameMemory self.old self.new }
    {
        let ring = self.ring;
        if buffer.len() < 2048 {
            return Err(LineFault::Memory);
        }
        let Some(frame) = self.oldest() else {
            return Ok(None);
        };
        let count = frame.len();
        lay(buffer, 0, frame);
        self.ring = ring.shorter(1);
        Ok(Some(count))
    }

    fn count(&self) -> (usize, usize)
        ensures line { Counts (waiting_in self.now) result }
        ensures memory { IsSlotLine self.now }
    {
        (self.ring.count(), self.ring.size())
    }
}
