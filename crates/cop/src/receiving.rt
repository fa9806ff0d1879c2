//! The receiving machine.
ghost use Rattle.std.specs.Prelude.{◌≡◌, true};
ghost use Rattle.cop.specs.Receiver.{IsReceiver, counted, delivers, fresh_receiver, judged, judgement, reported};

use super::receiver::Receiver;

/// What becomes of a sequence-controlled frame.
#[derive(Clone, Copy, PartialEq, Eq, Debug)]
pub enum Judgement {
    /// It is the frame that is wanted, and is delivered.
    Wanted,
    /// It is the frame that is wanted, and there is no free place for its unit.
    NoPlace,
    /// It comes after the one that is wanted, which is missing.
    Gap,
    /// It comes before the one that is wanted, and was delivered.
    Repeat,
}

impl Judgement {
    /// Whether the unit is delivered.
    pub fn delivers(self) -> bool
        ensures { result ≡ delivers self }
    {
        matches!(self, Judgement::Wanted)
    }
}

impl Receiver {
    /// A receiver of nothing yet.
    pub fn new() -> Receiver
        ensures answer { result ≡ fresh_receiver }
        ensures sound { IsReceiver result }
    {
        Receiver::default()
    }

    /// What becomes of the sequence-controlled frame with this number, if a place for its unit is free or not.
    pub fn judge(self, number: u8, free: bool) -> Judgement
        ensures answer { result ≡ judgement self number free }
        ensures sound { IsReceiver self }
    {
        match number.wrapping_sub(self.wanted) {
            0 if free => Judgement::Wanted,
            0 => Judgement::NoPlace,
            1..=127 => Judgement::Gap,
            _ => Judgement::Repeat,
        }
    }

    /// The machine after a sequence-controlled frame. Whatever became of it, a report is owed.
    pub fn after_judging(self, judgement: Judgement) -> Receiver
        ensures answer { result ≡ judged self judgement }
        ensures owes { result.owed ≡ true }
        ensures sound { IsReceiver result }
    {
        let (wanted, retransmit) = match judgement {
            Judgement::Wanted => (self.wanted.wrapping_add(1), false),
            Judgement::NoPlace | Judgement::Gap => (self.wanted, true),
            Judgement::Repeat => (self.wanted, self.retransmit),
        };
        Receiver {
            wanted,
            retransmit,
            owed: true,
            ..self
        }
    }

    /// The machine after an expedited frame.
    pub fn after_expedited(self) -> Receiver
        ensures answer { result ≡ counted self }
        ensures sound { IsReceiver result }
    {
        Receiver {
            counter: (self.counter + 1) % 8,
            ..self
        }
    }

    /// The machine after its report went. The flag stays: it is cleared by the frame that is wanted, not by its report.
    pub fn after_report(self) -> Receiver
        ensures answer { result ≡ reported self }
        ensures sound { IsReceiver result }
    {
        Receiver {
            owed: false,
            ..self
        }
    }
}
