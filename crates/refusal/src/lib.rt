//! What every refusal of the link layer answers.
//!
//! Each layer has a fault type of its own, with just the refusals that the layer can give. What they have in common
//! is here: a fault tells the number of its refusal, the layer that refused, and the octet where the fault lies.
#![tactic(auto)]

ghost use Rattle.std.specs.Prelude.{◌≡◌};
ghost use Rattle.refusal.specs.Place.{Place};

use std::fmt;

/// The layer that refused.
#[derive(Clone, Copy, PartialEq, Eq, Debug)]
pub enum Layer {
    Line,
    Frame,
    Spdu,
    End,
    Link,
}

impl fmt::Display for Layer {
    fn fmt<W: fmt::Write>(&self, f: &mut fmt::Formatter<W>) -> fmt::Result {
        f.write_str(match self {
            Layer::Line => "line",
            Layer::Frame => "frame",
            Layer::Spdu => "SPDU",
            Layer::End => "end",
            Layer::Link => "link",
        })
    }
}

/// A refusal by one of the layers.
// Three calls and no record of the three: most impls answer the number and the layer in one word each. Each layer has a
// type of its own, and an impl with it, so that a call answers no refusal that it cannot give.
pub trait Fault {
    ghost told: { Self → Place };

    /// The number of the refusal, from 1 to 20.
    fn number(&self) -> u8
        ensures { result ≡ (told self.now).number };

    /// The layer that refused.
    fn layer(&self) -> Layer
        ensures { result ≡ (told self.now).layer };

    /// The octet where the fault lies, counted from 0 in what the layer read, and 0 where it lies in no octet.
    fn octet(&self) -> usize
        ensures { result ≡ (told self.now).octet };
}
