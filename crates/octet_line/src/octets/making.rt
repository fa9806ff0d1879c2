//! The making of an octet line, in one call, or in two: one that tries, and one that makes what was granted.
ghost use Rattle.std.specs.Prelude.{◌≡◌, [], length, Ok};
ghost use Rattle.octet_line.specs.Octets.{empty_octets, made, making_answer, waiting_in};

use super::OctetLine;
use line::fault::LineFault;
use line::memory::try_memory;
use ring::Ring;

// The slot line's makings are like these, over memory of another shape: what they share is `try_memory`.
/// Tries what an octet line over so many octets asks, for a limit.
pub fn try_octets(octets: usize, limit: usize) -> Result<(), LineFault>
    ensures { result ≡ making_answer octets limit }
{
    try_memory(octets, 2050, limit)
}

/// An empty line over memory that `try_octets` has granted. The memory stays as it is.
pub fn make_octets<'a>(octets: &'a mut [u8], limit: usize) -> OctetLine<'a>
    requires { making_answer (length octets.old) limit ≡ Ok tt }
    ensures waiting { waiting_in result ≡ record { frames = []; limit = limit } }
    ensures octets { result.octets ≡ octets.old }
    ensures made { result ≡ empty_octets octets.old limit }
{
    OctetLine {
        ring: Ring::new(octets.len()).unwrap(),
        octets,
        count: 0,
        limit,
    }
}

impl<'a> OctetLine<'a> {
    /// An empty line over this memory, which stays as it is.
    pub fn new(octets: &'a mut [u8], limit: usize) -> Result<OctetLine<'a>, LineFault>
        ensures { result ≡ made octets.old limit }
    {
        try_octets(octets.len(), limit)?;
        Ok(make_octets(octets, limit))
    }
}
