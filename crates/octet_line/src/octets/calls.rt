//! What an octet line does.
ghost use Rattle.std.specs.Prelude.{◌≡◌, ◌≤◌, false, length};
ghost use Rattle.line.specs.Line.{Counts, Puts, Takes, filled, oldest};
ghost use Rattle.octet_line.specs.Frames.{frames_in};
ghost use Rattle.octet_line.specs.Octets.{IsOctetLine, ring_after, used_in, waiting_in};

use super::OctetLine;
use super::round::{add_frame, read_round};
use line::fault::LineFault;
use line::line::Line;
use line::transfer::admission;

impl<'a> OctetLine<'a> {
    // Puts the oldest frame first into the buffer, if one waits, and answers how many octets it has.
    fn read_oldest(&self, buffer: &mut [u8]) -> Option<usize>
        requires { 2048 ≤ length buffer.old }
        ensures answer { result ≡ oldest (frames_in self.now.count (used_in self.now)) }
        ensures octets { buffer.new ≡ filled (frames_in self.now.count (used_in self.now)) buffer.old }
    {
        let ring = self.ring;
        if self.count == 0 {
            return None;
        }
        let octets = &*self.octets;
        let count = usize::from(u16::from_be_bytes([octets[ring.first()], octets[ring.index(1)]]));
        read_round(octets, ring.index(2), count, buffer);
        Some(count)
    }
}

// The slot line has the same steps, over other memory: what they share is `admission`, `lay` and the ring.
impl<'a> Line for OctetLine<'a> {
    ghost waiting = { waiting_in };

    ghost loses = { λ _ _ lost. lost ≡ false };

    #[tactic(auto, using(crate::proofs::Frames::frames_count))]
    fn put(&mut self, frame: &[u8]) -> Result<(), LineFault>
        ensures line { Puts (λ lost. lost ≡ false) (waiting_in self.old) (waiting_in self.new) frame.now result }
        ensures octets { self.new.octets ≡ ring_after self.old frame.now }
    {
        let ring = self.ring;
        admission(frame, self.count == self.limit)?;
        self.ring = add_frame(self.octets, ring, frame);
        self.count += 1;
        Ok(())
    }

    fn take(&mut self, buffer: &mut [u8]) -> Result<Option<usize>, LineFault>
        ensures line { Takes (waiting_in self.old) (waiting_in self.new) buffer.old buffer.new result }
        ensures memory { self.new.octets ≡ self.old.octets }
    {
        let ring = self.ring;
        if buffer.len() < 2048 {
            return Err(LineFault::Memory);
        }
        let Some(count) = self.read_oldest(buffer) else {
            return Ok(None);
        };
        self.ring = ring.shorter(2 + count);
        self.count -= 1;
        Ok(Some(count))
    }

    fn count(&self) -> (usize, usize)
        ensures line { Counts (waiting_in self.now) result }
        ensures memory { IsOctetLine self.now }
    {
        (self.count, self.limit)
    }
}
