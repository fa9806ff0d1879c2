//! The numbers of a ring: which places of some memory are used, from a first one on and round the memory's end.
//!
//! A ring knows nothing of what lies in the places: a queue uses it over a table of elements, a line over slots or over
//! octets. It never moves what lies there. Every call answers for all numbers, so none asks anything of its caller.
#![tactic(auto)]

ghost use Rattle.std.specs.Prelude.{◌≡◌, ◌-◌, ◌<◌, min};
ghost use Rattle.ring.specs.Ring.{Sound, empty_ring, grown, index_of, making, without};

use std::marker::Model;

/// How many places the largest ring has. Two turns of it still fit a number.
pub const LARGEST: usize = 0x1_0000_0000;

/// Which places are used: `count` of them from `first` on, of `size` in all.
#[derive(Clone, Copy, PartialEq, Eq, Debug)]
pub struct Ring {
    first: usize,
    count: usize,
    size: usize,
}

impl Model for Ring {
    ghost use Rattle.ring.specs.Ring.{Numbers, Sound};

    ghost Value = { Numbers };

    ghost view = { λ g. record { first = g.first; count = g.count; size = g.size } };

    ghost invariant = { λ g. Sound (record { first = g.first; count = g.count; size = g.size }) };

    ghost inverse = { λ n. record { first = n.first; count = n.count; size = n.size } };
}

impl Ring {
    /// A ring of `size` places, 1 to `LARGEST`, of which none is used.
    pub fn new(size: usize) -> Option<Ring>
        ensures { result ≡ making size }
    {
        if size == 0 || size > LARGEST {
            return None;
        }
        Some(Ring {
            first: 0,
            count: 0,
            size,
        })
    }

    /// The first place that is used, or will be.
    pub fn first(self) -> usize
        ensures { result ≡ self.first }
    {
        self.first
    }

    /// How many places are used.
    pub fn count(self) -> usize
        ensures { result ≡ self.count }
    {
        self.count
    }

    /// How many places there are.
    pub fn size(self) -> usize
        ensures size { result ≡ self.size }
        ensures sound { Sound self }
    {
        self.size
    }

    /// The place that comes `k` after the first, round the ring. A `k` past a whole turn counts as a whole turn. A
    /// remainder would do too, at the cost of a division.
    pub fn index(self, k: usize) -> usize
        ensures at { result ≡ index_of self (min k self.size) }
        ensures within { result < self.size }
    {
        let i = self.first + k.min(self.size);
        if i < self.size { i } else { i - self.size }
    }

    /// The ring of as many places, of which none is used.
    pub fn cleared(self) -> Ring
        ensures { result ≡ empty_ring self.size }
    {
        Ring {
            first: 0,
            count: 0,
            size: self.size,
        }
    }

    /// So many places more are used behind the others, or as many as are free.
    pub fn longer(self, n: usize) -> Ring
        ensures { result ≡ grown (min n (self.size - self.count)) self }
    {
        let more = n.min(self.size - self.count);
        Ring {
            count: self.count + more,
            ..self
        }
    }

    /// The first n places are free, or all where fewer are used.
    pub fn shorter(self, n: usize) -> Ring
        ensures { result ≡ without (min n self.count) self }
    {
        let gone = n.min(self.count);
        Ring {
            first: self.index(gone),
            count: self.count - gone,
            ..self
        }
    }
}
