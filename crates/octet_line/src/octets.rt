//! The memory of an octet line, and which octets of it are used.
pub mod calls;
pub mod making;
mod round;

use ring::Ring;
use std::marker::Model;

/// A line over a ring of octets: the octets, which of them are used, how many frames these are, and how many may wait.
#[derive(Drop, Debug)]
pub struct OctetLine<'a> {
    octets: &'a mut [u8],
    ring: Ring,
    count: usize,
    limit: usize,
}

impl<'a> Model for OctetLine<'a> {
    ghost use Rattle.octet_line.specs.Octets.{IsOctetLine, Octets};

    ghost Value = { Octets };

    ghost view = { λ s. record { octets = s.octets.now; ring = s.ring; count = s.count; limit = s.limit } };

    ghost invariant = { λ s. IsOctetLine (record { octets = s.octets.now; ring = s.ring; count = s.count; limit = s.limit }) };
}
