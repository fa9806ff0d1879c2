//! Octets round the ring.
ghost use Rattle.std.specs.Prelude.{◌≡◌, ◌+◌, ◌<◌, ◌≤◌, ◌++◌, length, take, drop};
ghost use Rattle.line.specs.Memory.{laid};
ghost use Rattle.octet_line.specs.Frames.{frame_laid, headed, laid_round};
ghost use Rattle.ring.specs.Ring.{Sound, grown, index_of, queued};

use line::memory::lay;
use ring::Ring;

// Lays octets from a place on, and goes on at the ring's start where they come to its end.
fn lay_round(ring: &mut [u8], at: usize, octets: &[u8])
    requires place { at < length ring.old }
    requires room { length octets.now ≤ length ring.old }
    ensures { ring.new ≡ laid_round ring.old at octets.now }
{
    let room = ring.len() - at;
    // Most often one step does: two would cost as much again where the octets are few.
    if octets.len() <= room {
        lay(ring, at, octets);
    } else {
        let (ahead, round) = octets.split_at(room);
        lay(ring, at, ahead);
        lay(ring, 0, round);
    }
}

// Lays octets behind the used ones, and answers with them the ring in which they are used too.
fn add(memory: &mut [u8], ring: Ring, octets: &[u8]) -> Ring
    requires ring { Sound ring }
    requires room { length memory.old ≡ ring.size }
    requires some { 1 ≤ length octets.now }
    requires fits { ring.count + length octets.now ≤ ring.size }
    ensures ring { result ≡ grown (length octets.now) ring }
    ensures memory { memory.new ≡ laid_round memory.old (index_of ring ring.count) octets.now }
    ensures used { queued result memory.new ≡ queued ring memory.old ++ octets.now }
{
    lay_round(memory, ring.index(ring.count()), octets);
    ring.longer(octets.len())
}

// Adds a frame behind the used octets, after two octets with its length, and answers the ring in which they are used.
pub(crate) fn add_frame(memory: &mut [u8], ring: Ring, frame: &[u8]) -> Ring
    requires ring { Sound ring }
    requires room { length memory.old ≡ ring.size }
    requires some { 1 ≤ length frame.now }
    requires short { length frame.now ≤ 2048 }
    requires fits { ring.count + (2 + length frame.now) ≤ ring.size }
    ensures ring { result ≡ grown (length frame.now) (grown 2 ring) }
    ensures memory { memory.new ≡ frame_laid memory.old ring frame.now }
    ensures used { queued result memory.new ≡ queued ring memory.old ++ headed frame.now }
{
    let length = (frame.len() as u16).to_be_bytes();
    let ring = add(memory, ring, &length);
    add(memory, ring, frame)
}

// Puts so many octets from a place on, round the ring, first into the buffer.
// No twin of `lay_round`: there the cut is in what is laid, here in what is read, and they share no step but `lay`.
pub(crate) fn read_round(ring: &[u8], from: usize, count: usize, buffer: &mut [u8])
    requires place { from < length ring.now }
    requires room { count ≤ length ring.now }
    requires short { count ≤ length buffer.old }
    ensures { buffer.new ≡ laid buffer.old 0 (take count (drop from (ring.now ++ ring.now))) }
{
    let ahead = ring.len() - from;
    if count <= ahead {
        lay(buffer, 0, &ring[from..from + count]);
    } else {
        lay(buffer, 0, &ring[from..]);
        lay(buffer, ahead, &ring[..count - ahead]);
    }
}
