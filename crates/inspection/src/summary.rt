//! How many lines of a recording were what.
ghost use Rattle.std.specs.Prelude.{◌≡◌};
ghost use Rattle.inspection.specs.Summary.{framed, more, none, refused_once, unreadable_once};

use frame::header::{Kind, Quality};

/// How many numbers there are from 0 to the last that a refusal can have.
pub const NUMBERS: usize = 21;

/// The counts of a recording.
#[derive(Drop)]
pub struct Summary {
    /// User frames that are sequence-controlled.
    pub controlled: u64,
    /// User frames that are expedited.
    pub expedited: u64,
    pub supervisory: u64,
    /// How often each refusal came, by its number. None has the number 0.
    pub refused: [u64; NUMBERS],
    /// Lines that are not octets.
    pub unreadable: u64,
}

// A count that is full stays so.
fn one_more(count: u64) -> u64
    ensures { result ≡ more count }
{
    count.saturating_add(1)
}

impl Summary {
    /// The counts of no lines.
    pub fn new() -> Summary
        ensures { result ≡ none }
    {
        Summary {
            controlled: 0,
            expedited: 0,
            supervisory: 0,
            refused: [0; NUMBERS],
            unreadable: 0,
        }
    }

    /// Counts a frame. A supervisory one counts by its kind alone, since it is always expedited.
    pub fn count_frame(&mut self, kind: Kind, quality: Quality)
        ensures { self.new ≡ framed kind quality self.old }
    {
        match (kind, quality) {
            (Kind::User, Quality::SequenceControlled) => {
                self.controlled = one_more(self.controlled);
            }
            (Kind::User, Quality::Expedited) => self.expedited = one_more(self.expedited),
            (Kind::Supervisory, _) => self.supervisory = one_more(self.supervisory),
        }
    }

    /// Counts a refusal by its number.
    // Not by a fault: each layer's faults are a type of its own, and what is told at the end are numbers.
    pub fn count_refusal(&mut self, number: u8)
        ensures { self.new ≡ refused_once number self.old }
    {
        // By an index: with `get_mut` the check did not see which count changes.
        let place = usize::from(number);
        if place < NUMBERS {
            self.refused[place] = one_more(self.refused[place]);
        }
    }

    /// Counts a line that is not octets.
    pub fn count_unreadable(&mut self)
        ensures { self.new ≡ unreadable_once self.old }
    {
        self.unreadable = one_more(self.unreadable);
    }
}
