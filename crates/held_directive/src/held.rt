//! A directive in a queue.
ghost use Rattle.std.specs.Prelude.{◌≡◌, ◌≤◌, [], ◌∷◌, length};
ghost use Rattle.bits.specs.Codec.{put, put_answer};
ghost use Rattle.held_directive.specs.Held.{packing, padded};

use bits::put_first;
use queue::queue::Octets;
use std::marker::Model;

/// How many octets a queue keeps of a directive at most: those of the longest SPDU.
pub const LONGEST_DIRECTIVE: usize = 16;

/// The octets of a directive, 16 at most. They are kept with their number in one value that can be copied, so that a
/// table of them needs no store beside it, and what is behind them is zero.
#[derive(Clone, Copy, PartialEq, Eq, Debug)]
pub struct HeldDirective {
    octets: [u8; LONGEST_DIRECTIVE],
    count: u8,
}

impl Model for HeldDirective {
    ghost use Rattle.std.specs.Prelude.{ℕ, List, length, take};
    ghost use Rattle.std.proofs.Common.{ap₂, sym};
    ghost use Rattle.held_directive.specs.Held.{Padded, padded};

    ghost Value = { List ℕ };

    ghost view = { λ h. take h.count h.octets };

    ghost invariant = { λ h. Padded h.octets h.count };

    ghost inverse = { λ o. record { octets = padded o; count = length o } };

    ghost inverse_ok = { λ h p. ap₂ (λ o n. record { octets = o; count = n }) (sym p.zeros) p.count };
}

impl HeldDirective {
    /// The directive with which a table is made: an SPDU of Type 5 without a directive. A queue never shows it.
    pub fn blank() -> HeldDirective
        ensures { result ≡ 64 ∷ [] }
    {
        let mut octets = [0; LONGEST_DIRECTIVE];
        octets[0] = 0x40;
        HeldDirective { octets, count: 1 }
    }

    /// Packs octets. None where they are more than 16.
    pub fn pack(octets: &[u8]) -> Option<HeldDirective>
        ensures { result ≡ packing octets.now }
    {
        let count = octets.len();
        if count > LONGEST_DIRECTIVE {
            return None;
        }
        Some(HeldDirective {
            octets: padded(octets),
            count: count as u8,
        })
    }

    /// Copies the octets to the front of a buffer, and answers how many they are. None where they find no room: the
    /// buffer then stays.
    pub fn unpack(&self, buffer: &mut [u8]) -> Option<usize>
        ensures answer { result ≡ put_answer self.now buffer.old }
        ensures after { buffer.new ≡ put self.now buffer.old }
        ensures few { length self.now ≤ 16 }
    {
        put_first(&self.octets[0..self.count as usize], buffer)
    }
}

// Octets with zeros behind them.
fn padded(octets: &[u8]) -> [u8; LONGEST_DIRECTIVE]
    requires { length octets.now ≤ 16 }
    ensures { result ≡ padded octets.now }
{
    let mut all = [0; LONGEST_DIRECTIVE];
    all[0..octets.len()].copy_from_slice(octets);
    all
}

impl Octets for HeldDirective {
    ghost use Rattle.std.specs.Prelude.{length, min};
    ghost use Rattle.std.proofs.Common.{rules};

    ghost octets = { λ o. min (length o) 16 };

    ghost few = { Prim.search rules };

    fn octet_count(&self) -> u16
        ensures octets { result ≡ min (length self.now) 16 }
        ensures few { length self.now ≤ 16 }
    {
        self.count as u16
    }
}
