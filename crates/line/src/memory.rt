//! Octets in lent memory.
ghost use Rattle.std.specs.Prelude.{◌≡◌};
ghost use Rattle.line.specs.Memory.{laid, memory_answer, room_for};

use super::fault::LineFault;

/// Tries whether memory of so many octets is that of a line which keeps `limit` frames in `each` octets.
pub fn try_memory(octets: usize, each: usize, limit: usize) -> Result<(), LineFault>
    ensures { result ≡ memory_answer octets each limit }
{
    if limit.checked_mul(each) != Some(octets) {
        return Err(LineFault::Memory);
    }
    if !(1..=4096).contains(&limit) {
        return Err(LineFault::Limit);
    }
    Ok(())
}

/// Lays octets over memory from a place on, and answers whether they had room there. Without room nothing changes.
// A flag: callers that know of the room let it go, and a Result with one refusal and no value would say no more.
pub fn lay(store: &mut [u8], at: usize, octets: &[u8]) -> bool
    ensures answer { result ≡ room_for store.old at octets.now }
    ensures after { store.new ≡ laid store.old at octets.now }
{
    let count = octets.len();
    if store.len() < count || store.len() - count < at {
        return false;
    }
    store[at..at + count].copy_from_slice(octets);
    true
}
