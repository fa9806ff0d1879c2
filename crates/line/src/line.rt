//! A line by the frames that wait in it.
ghost use Rattle.std.specs.Prelude.{ℕ, Bool, List};
ghost use Rattle.line.specs.Line.{Counts, Puts, Takes, Waiting};

use super::fault::LineFault;

/// A line: what waits in it, and what it may do with a frame whose putting it grants, lose it (true) or keep it
/// (false). A line that may do both says so; nothing above it may then count on either.
pub trait Line {
    ghost waiting: { Self → Waiting };

    ghost loses: { Self → List ℕ → Bool → Type 0 };

    /// Puts a frame behind those that wait.
    fn put(&mut self, frame: &[u8]) -> Result<(), LineFault>
        ensures { Puts (loses self.old frame.now) (waiting self.old) (waiting self.new) frame.now result };

    /// Takes the oldest frame, puts its octets first into the buffer, and answers how many they are.
    fn take(&mut self, buffer: &mut [u8]) -> Result<Option<usize>, LineFault>
        ensures { Takes (waiting self.old) (waiting self.new) buffer.old buffer.new result };

    /// How many frames wait, and how many may.
    fn count(&self) -> (usize, usize)
        ensures { Counts (waiting self.now) result };
}
