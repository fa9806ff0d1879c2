//! Queues of units.
//!
//! A queue of units is the numbers of a queue, a table of slips and a store that is cut into slots of 2,048 octets. A
//! slip and its slot have the same index, so nothing has to be searched, and no octet moves while a unit waits. The
//! caller lends table and store to each call, which tries first whether they fit, so a queue and its memory stay two
//! values.
ghost use Rattle.std.specs.Prelude.{◌≡◌, ◌*◌, cond, ◌&&◌, Ok, Err, nat_lt};
ghost use Rattle.queue.specs.Counts.{IsQueue};
ghost use Rattle.queue.specs.Queue.{Keeps, shown};
ghost use Rattle.ring.specs.Ring.{Sound};
ghost use Rattle.unit.specs.Unit.{CopiesOut, Holds, LetsGo, memory_fits, roomy, slip_octets};
ghost use Rattle.unit.specs.declared.fault.UnitFault.TheVariants.{Memory};

use super::fault::UnitFault;
use super::slip::Slip;
use frame::header::Quality;
use line::memory::lay;
use queue::queue::Queue;

/// How many octets the largest unit has.
pub const LARGEST_UNIT: usize = 2043;

/// How many octets of the store each slip of the table has.
pub const SLOT: usize = 2048;

/// The lent memory of a queue of units: a slip for each place, and 2,048 octets for each slip. These are two slices, as
/// a queue's table holds what is copied in and out, and the octets are copied once each way.
#[derive(Drop)]
pub struct Units<'a> {
    pub slips: &'a mut [Slip],
    pub store: &'a mut [u8],
}

/// Whether the memory is that of a queue of units.
// A test and no refusal: an end asks it of all its memory before it refuses.
pub fn fits(queue: &Queue, units: &Units<'_>) -> bool
    ensures answer { result ≡ memory_fits queue.now.ring units.now.slips.now units.now.store.now }
    ensures sound { Sound queue.now.ring }
    ensures numbers { IsQueue queue.now }
{
    units.slips.len() == queue.size() && units.store.len() == SLOT * queue.size()
}

/// Queues a unit behind the others, and answers how many there are then. Its octets are copied once.
pub fn hold(
    queue: &mut Queue,
    units: &mut Units<'_>,
    port: u8,
    quality: Quality,
    octets: &[u8],
) -> Result<usize, UnitFault>
    ensures held { Holds queue.old.ring queue.new.ring units.old.slips.now units.new.slips.now units.old.store.now units.new.store.now (record { port = port; quality = quality; octets = octets.now }) result }
    ensures keeps { Keeps slip_octets queue.old units.old.slips.now result queue.new units.new.slips.now }
    ensures numbers_before { IsQueue queue.old }
    ensures numbers { IsQueue queue.new }
{
    if !fits(queue, units) {
        return Err(UnitFault::Memory);
    }
    let count = octets.len();
    if !(1..=LARGEST_UNIT).contains(&count) || port > 7 {
        return Err(UnitFault::Unit);
    }
    let index = queue.index(queue.count());
    let slip = Slip {
        port,
        quality,
        length: count as u16,
    };
    let queued = queue.add(units.slips, slip)?;
    lay(units.store, SLOT * index, octets);
    Ok(queued)
}

/// Copies the unit at a place, counted from 0 at the oldest, out to a buffer of 2,043 octets or more, and answers what
/// is noted of it, or none where there is no unit at the place.
pub fn copy_unit(
    queue: &Queue,
    units: &Units<'_>,
    place: usize,
    buffer: &mut [u8],
) -> Result<Option<Slip>, UnitFault>
    ensures copied { CopiesOut queue.now.ring units.now.slips.now units.now.store.now place buffer.old buffer.new result }
    ensures there { shown result ≡ cond (memory_fits queue.now.ring units.now.slips.now units.now.store.now && roomy buffer.old) (Ok (nat_lt place queue.now.ring.count)) (Err Memory) }
    ensures numbers { IsQueue queue.now }
{
    if !fits(queue, units) || buffer.len() < LARGEST_UNIT {
        return Err(UnitFault::Memory);
    }
    if place >= queue.count() {
        return Ok(None);
    }
    // Not by `copy_out`: the index is wanted twice, for the slip and for its slot.
    let index = queue.index(place);
    let slip = units.slips[index];
    let start = SLOT * index;
    lay(buffer, 0, &units.store[start..start + slip.length as usize]);
    Ok(Some(slip))
}

/// Lets the first n units go, or all where there are fewer, and answers how many went.
pub fn free_units(queue: &mut Queue, units: &Units<'_>, n: usize) -> Result<usize, UnitFault>
    ensures freed { LetsGo queue.old.ring queue.new.ring units.now.slips.now units.now.store.now n result }
    ensures keeps { Keeps slip_octets queue.old units.now.slips.now result queue.new units.now.slips.now }
    ensures numbers_before { IsQueue queue.old }
    ensures numbers { IsQueue queue.new }
{
    if !fits(queue, units) {
        return Err(UnitFault::Memory);
    }
    Ok(queue.free(units.slips, n)?)
}
