//! What a sending turn does.
ghost use Rattle.std.specs.Prelude.{◌≡◌};
ghost use Rattle.cop.specs.Sender.{step_number};

/// The steps of a sending turn, in the order in which they are tried.
#[derive(Clone, Copy, PartialEq, Eq, Debug)]
pub enum Step {
    /// The oldest directive goes, and leaves its queue.
    Directive = 1,
    /// The report that is owed goes.
    Report = 2,
    /// The expedited unit that has waited longest goes, and leaves its queue.
    Expedited = 3,
    /// A unit that was sent goes again.
    Again = 4,
    /// A unit goes for the first time.
    First = 5,
    /// All that may be out is out, and was sent again: the oldest goes once more.
    Oldest = 6,
    /// Nothing waits, and nothing is put.
    Idle = 7,
}

impl Step {
    /// The number of the step, from 1 to 7.
    pub fn number(self) -> u8
        ensures { result ≡ step_number self }
    {
        self as u8
    }
}
