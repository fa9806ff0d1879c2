//! A layer that loses frames, as a line does that fades.
ghost use Rattle.std.specs.Prelude.{◌≡◌, ◌≤◌};
ghost use Rattle.line.specs.Fade.{Fades, left_to_lose};
ghost use Rattle.line.specs.Line.{Puts};

use super::fault::LineFault;
use super::line::Line;
use super::transfer::admits;

/// Any line, of which the next frames are lost, as many as the layer was last told. It has the list and the limit of
/// the line below.
#[derive(Drop, Clone, PartialEq, Eq, Debug)]
pub struct Fade<L> {
    below: L,
    lose: u64,
}

impl<L: Line> Fade<L> {
    /// A layer over a line, which loses nothing yet.
    pub fn new(below: L) -> Fade<L>
        ensures { result ≡ record { below = below; lose = 0 } }
    {
        Fade { below, lose: 0 }
    }

    /// Tells how many of the next frames are lost, whatever was told before.
    pub fn tell(&mut self, lose: u64)
        ensures { self.new ≡ record { below = self.old.below; lose = lose } }
    {
        self.lose = lose;
    }
}

impl<L: Line> Line for Fade<L> {
    ghost waiting = { λ s. L.Line.waiting s.below };

    ghost loses = { λ s f lost. Fades s.lose (L.Line.loses s.below f) lost };

    // A frame that is lost is answered as the line below would answer it, so its length and the room are tried first.
    fn put(&mut self, frame: &[u8]) -> Result<(), LineFault>
        ensures line { Puts (Fades self.old.lose (L.Line.loses self.old.below frame.now)) (L.Line.waiting self.old.below) (L.Line.waiting self.new.below) frame.now result }
        ensures left { self.new.lose ≡ left_to_lose self.old.lose result }
        ensures untouched { 1 ≤ self.old.lose → self.new.below ≡ self.old.below }
    {
        if self.lose == 0 {
            return self.below.put(frame);
        }
        admits(&self.below, frame)?;
        self.lose -= 1;
        Ok(())
    }

    fn take(&mut self, buffer: &mut [u8]) -> Result<Option<usize>, LineFault> {
        self.below.take(buffer)
    }

    fn count(&self) -> (usize, usize) {
        self.below.count()
    }
}
