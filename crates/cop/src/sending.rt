//! The sending machine.
ghost use Rattle.std.specs.Prelude.{◌≡◌, ◌↔◌, IfSome, IsNone};
ghost use Rattle.cop.specs.Laws.{InWindow, KeepsNumbers};
ghost use Rattle.cop.specs.Sender.{IsSender, acknowledging, expedited_sent, making_sender, number_at, sender_turn};

use super::sender::Sender;
use super::step::Step;

/// A turn of the sending machine in which a unit goes.
#[derive(Clone, Copy, PartialEq, Eq, Debug)]
pub struct Turn {
    /// Whether the unit goes again, for the first time, or as the oldest.
    pub step: Step,
    /// The place of the unit that goes.
    pub place: u8,
    /// The machine after the turn, if the line takes the frame.
    pub after: Sender,
}

/// What a report does.
#[derive(Clone, Copy, PartialEq, Eq, Debug)]
pub struct Acknowledgement {
    /// How many units it frees, the oldest first.
    pub freed: u8,
    /// The machine after it.
    pub after: Sender,
}

impl Sender {
    /// A sender of nothing yet. None where the window is not from 1 to 127.
    pub fn new(window: u8) -> Option<Sender>
        ensures answer { result ≡ making_sender window }
        ensures sound { IfSome result IsSender }
    {
        if !(1..=127).contains(&window) {
            return None;
        }
        Some(Sender {
            count: 0,
            base: 0,
            out: 0,
            at: 0,
            window,
            expedited: 0,
        })
    }

    /// What the machine does when it is its turn. None where no unit waits.
    pub fn turn(self) -> Option<Turn>
        ensures answer { result ≡ sender_turn self }
        ensures window { IfSome result (InWindow self) }
        ensures idle { IsNone result ↔ (self.count ≡ 0) }
        ensures sound { IfSome result (λ t. IsSender t.after) }
    {
        if self.at < self.out {
            return Some(Turn {
                step: Step::Again,
                place: self.at,
                after: Sender {
                    at: self.at + 1,
                    ..self
                },
            });
        }
        if self.out < self.window && u16::from(self.out) < self.count {
            let out = self.out + 1;
            return Some(Turn {
                step: Step::First,
                place: self.out,
                after: Sender {
                    out,
                    at: out,
                    ..self
                },
            });
        }
        if self.out > 0 {
            return Some(Turn {
                step: Step::Oldest,
                place: 0,
                after: Sender { at: 1, ..self },
            });
        }
        None
    }

    /// The number of the frame of the unit at a place.
    pub fn number_at(self, place: u8) -> u8
        ensures answer { result ≡ number_at self place }
        ensures sound { IsSender self }
    {
        self.base.wrapping_add(place)
    }

    /// The machine after an expedited frame went.
    pub fn after_expedited(self) -> Sender
        ensures answer { result ≡ expedited_sent self }
        ensures sound { IsSender result }
    {
        Sender {
            expedited: self.expedited.wrapping_add(1),
            ..self
        }
    }

    /// What a report does that holds this value, and whether it asks to start again. None where it would acknowledge
    /// more than is out.
    pub fn acknowledge(self, value: u8, retransmit: bool) -> Option<Acknowledgement>
        ensures answer { result ≡ acknowledging self value retransmit }
        ensures numbers { IfSome result (KeepsNumbers self) }
        ensures sound { IfSome result (λ a. IsSender a.after) }
    {
        let freed = value.wrapping_sub(self.base);
        if freed > self.out {
            return None;
        }
        let at = if retransmit {
            0
        } else {
            self.at.saturating_sub(freed)
        };
        Some(Acknowledgement {
            freed,
            after: Sender {
                count: self.count - u16::from(freed),
                base: value,
                out: self.out - freed,
                at,
                ..self
            },
        })
    }
}
