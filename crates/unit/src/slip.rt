//! What a queue keeps of a unit beside its octets.
ghost use Rattle.std.specs.Prelude.{◌≡◌, ◌≤◌, min};
ghost use Rattle.frame.specs.declared.header.Quality.TheVariants.{SequenceControlled};

use frame::header::Quality;
use queue::queue::Octets;
use std::marker::Model;

/// A unit's port, up to 7, its quality, and its length, 2,043 at most; its octets are in the store.
#[derive(Clone, Copy, PartialEq, Eq, Debug)]
pub struct Slip {
    pub port: u8,
    pub quality: Quality,
    pub length: u16,
}

impl Model for Slip {
    ghost use Rattle.std.specs.Prelude.{◌≤◌};
    ghost use Rattle.unit.specs.Note.{Note};

    ghost Value = { Note };

    ghost view = { λ s. record { port = s.port; quality = s.quality; length = s.length } };

    ghost invariant = { λ s. (s.port ≤ 7) × (s.length ≤ 2043) };

    ghost inverse = { λ n. record { port = n.port; quality = n.quality; length = n.length } };
}

impl Slip {
    /// The slip of no unit, with which a table is made. A queue never shows it.
    pub fn blank() -> Slip
        ensures { result ≡ record { port = 0; quality = SequenceControlled; length = 0 } }
    {
        Slip {
            port: 0,
            quality: Quality::SequenceControlled,
            length: 0,
        }
    }
}

impl Octets for Slip {
    ghost use Rattle.std.specs.Prelude.{min};
    ghost use Rattle.std.proofs.Common.{rules};

    ghost octets = { λ s. min s.length 2043 };

    ghost few = { Prim.search rules };

    fn octet_count(&self) -> u16
        ensures octets { result ≡ min self.now.length 2043 }
        ensures length { self.now.length ≤ 2043 }
        ensures port { self.now.port ≤ 7 }
    {
        self.length
    }
}
