//! The reader of a recording.
ghost use Rattle.std.specs.Prelude.{◌≡◌, ◌≤◌, [], length, take};
ghost use Rattle.recording.specs.Faults.{TellsFirst};
ghost use Rattle.recording.specs.Lines.{joined, outcome, start, step};
ghost use Rattle.recording.specs.Texts.{ReadsBack, ReadsOnly};

use crate::character::Character;
use crate::fault::TextFault;
use crate::place::Place;
use std::marker::Model;

/// How many octets of a line are stored: one more than the longest frame has, so that a longer line is still seen to be
/// too long.
pub const LONGEST: usize = 2049;

/// Reads a recording character by character, in memory that does not grow with the text.
#[derive(Drop)]
pub struct Reader {
    /// In front the octets of the line under way or, before its first character, of the line that has just ended.
    // An array and no vector of fixed room: the toolchain's is a library whose statements a check takes as they are.
    octets: [u8; LONGEST],
    /// How many octets these are.
    count: usize,
    /// How many characters of the line under way were fed.
    column: u64,
    /// Where the line under way stands.
    place: Place,
}

impl Model for Reader {
    ghost use Rattle.std.specs.Prelude.{◌≤◌};
    ghost use Rattle.recording.specs.Lines.{Recorded};

    ghost Value = { Recorded };

    ghost use Rattle.recording.specs.Readings.{latest, reading};

    ghost view = { λ r. record { reading = reading r; latest = latest r } };

    ghost invariant = { λ r. r.count ≤ 2049 };
}

impl Reader {
    /// A reader at the start of a line, with no line behind it.
    pub fn new() -> Reader
        ensures reading { result.reading ≡ start }
        ensures latest { result.latest ≡ [] }
    {
        Reader {
            octets: [0; LONGEST],
            count: 0,
            column: 0,
            place: Place::Between,
        }
    }

    /// Reads one more character of the line, which is not the line's end.
    pub fn feed(&mut self, character: u8)
        ensures reading { self.new.reading ≡ step self.old.reading character }
        ensures latest { self.new.latest ≡ [] }
    {
        let kind = Character::from(character);
        self.forget();
        if let Some(octet) = self.place.finish(&kind) {
            self.count = store(&mut self.octets, self.count, octet);
        }
        self.place = self.place.advance(self.column, &kind);
        self.column = self.column.saturating_add(1);
    }

    /// Ends the line, and says how many of its octets are stored, or its first fault.
    ///
    /// None are stored of a line that is blank, or a comment only. 2,049 stands for every longer line too.
    /// The octets can be read until the next character is fed.
    pub fn end_line(&mut self) -> Result<usize, TextFault>
        ensures answer { result ≡ outcome self.old.reading }
        ensures reading { self.new.reading ≡ start }
        ensures latest { self.new.latest ≡ self.old.reading.octets }
        ensures written { ReadsBack self.old.reading result self.new.latest }
        ensures only { ReadsOnly self.old.reading result }
        ensures first { TellsFirst self.old.reading result }
        ensures few { length self.old.reading.octets ≤ LONGEST }
    {
        self.forget();
        let held = self.place.conclude(self.count, self.column);
        self.column = 0;
        self.place = Place::Between;
        held
    }

    /// The octets of the line that has just ended: those before the fault, if it had one. None once the next line has
    /// begun.
    pub fn octets(&self) -> &[u8]
        ensures octets { result.now ≡ self.now.latest }
        ensures few { length result.now ≤ LONGEST }
    {
        let count = if self.column == 0 { self.count } else { 0 };
        &self.octets[..count]
    }

    /// Lets go of the octets of the line that has ended, if they are still there.
    fn forget(&mut self)
        ensures reading { self.new.reading ≡ self.old.reading }
        ensures latest { self.new.latest ≡ [] }
    {
        if self.column == 0 {
            self.count = 0;
        }
    }
}

/// Stores an octet behind the first `count`, unless these are too many already, and answers how many are stored then.
fn store(octets: &mut [u8; LONGEST], count: usize, octet: u8) -> usize
    requires few { count ≤ LONGEST }
    ensures stored { take result octets.new ≡ joined (take count octets.old) octet }
    ensures small { result ≤ LONGEST }
{
    if count < LONGEST {
        octets[count] = octet;
        return count + 1;
    }
    count
}
