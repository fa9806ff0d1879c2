//! What a queue is, what it asks of its elements, and its calls.
ghost use Rattle.std.specs.Prelude.{◌≡◌, ℕ, ◌*◌, ◌<◌, ◌≤◌, min, length, take, OnOk, sum_by, nat_lt};
ghost use Rattle.ring.specs.Ring.{Sound, index_of, queued};
ghost use Rattle.queue.specs.Counts.{IsQueue, empty_queue};
ghost use Rattle.queue.specs.Limits.{largest_table, most_octets};
ghost use Rattle.queue.specs.Queue.{Added, Fitted, Freed, Keeps, copied_at, making, over, shown};

use super::fault::QueueFault;
use ring::Ring;
use std::marker::Model;

/// How many elements the largest table has.
pub const LARGEST_TABLE: usize = 256;

/// An element that tells how many octets it stands for.
pub trait Octets {
    ghost octets: { Self → ℕ };

    /// How many octets the element stands for.
    fn octet_count(&self) -> u16
        ensures { result ≡ octets self.now };

    // No element stands for more than 2,048 octets, so the total of a full queue fits a number.
    ghost few: { (x : Self) → octets x ≤ most_octets };
}

/// A queue over a table of 1 to `LARGEST_TABLE` elements that the caller lends to each call.
#[derive(Clone, Copy, PartialEq, Eq, Debug)]
pub struct Queue {
    ring: Ring,
    // The octets of the queued elements together, so that telling them reads no element.
    total: usize,
}

impl Model for Queue {
    ghost use Rattle.queue.specs.Counts.{Counts, IsQueue};

    ghost Value = { Counts };

    ghost view = { λ q. record { ring = q.ring; total = q.total } };

    ghost invariant = { λ q. IsQueue (record { ring = q.ring; total = q.total }) };

    ghost inverse = { λ n. record { ring = n.ring; total = n.total } };
}

impl Queue {
    /// An empty queue for a table of `size` elements, 1 to `LARGEST_TABLE`.
    pub fn new(size: usize) -> Result<Queue, QueueFault>
        ensures { result ≡ making size }
    {
        if size > LARGEST_TABLE {
            return Err(QueueFault::Table);
        }
        let ring = Ring::new(size).ok_or(QueueFault::Table)?;
        Ok(Queue { ring, total: 0 })
    }

    /// How many elements are queued.
    pub fn count(&self) -> usize
        ensures count { result ≡ self.now.ring.count }
        ensures numbers { IsQueue self.now }
    {
        self.ring.count()
    }

    /// How many elements the table has that the queue was made for.
    pub fn size(&self) -> usize
        ensures size { result ≡ self.now.ring.size }
        ensures sound { Sound self.now.ring }
        ensures small { result ≤ largest_table }
    {
        self.ring.size()
    }

    /// How many octets the queued elements stand for together.
    pub fn total(&self) -> usize
        ensures total { result ≡ self.now.total }
        ensures numbers { IsQueue self.now }
    {
        self.total
    }

    /// Whether the table has the size that the queue was made for.
    pub fn fits<T: Octets>(&self, table: &[T]) -> bool
        ensures fits { Fitted T.octets self.now table.now result }
        ensures numbers { IsQueue self.now }
    {
        table.len() == self.ring.size()
    }

    /// The index in the table of a place of the queue, and of the place after the last, where the next element goes.
    /// A place past the size of the table counts as the size.
    pub fn index(&self, place: usize) -> usize
        ensures at { result ≡ index_of self.now.ring (min place self.now.ring.size) }
        ensures within { result < self.now.ring.size }
        ensures numbers { IsQueue self.now }
    {
        self.ring.index(place)
    }

    /// Adds x behind the others, and answers how many there are then.
    pub fn add<T: Copy + Octets>(&mut self, table: &mut [T], x: T) -> Result<usize, QueueFault>
        ensures added { Added self.old.ring table.old x result self.new.ring table.new }
        ensures keeps { Keeps T.octets self.old table.old result self.new table.new }
        ensures numbers_before { IsQueue self.old }
        ensures numbers { IsQueue self.new }
    {
        check_table(self.ring, table)?;
        let count = self.ring.count();
        if count >= self.ring.size() {
            return Err(QueueFault::Full);
        }
        table[self.ring.index(count)] = x;
        let total = self.total.saturating_add(x.octet_count() as usize);
        *self = Queue {
            ring: self.ring.longer(1),
            total,
        };
        Ok(self.ring.count())
    }

    /// Lets the first n elements go, or all where there are fewer, and answers how many went. It reads the elements
    /// that leave, for their octets, and no other.
    pub fn free<T: Octets>(&mut self, table: &[T], n: usize) -> Result<usize, QueueFault>
        ensures freed { Freed self.old.ring table.now n result self.new.ring }
        ensures keeps { Keeps T.octets self.old table.now result self.new table.now }
        ensures numbers_before { IsQueue self.old }
        ensures numbers { IsQueue self.new }
    {
        check_table(self.ring, table)?;
        let gone = n.min(self.ring.count());
        let total = self
            .total
            .saturating_sub(octets_of_first(self.ring, table, gone));
        *self = Queue {
            ring: self.ring.shorter(gone),
            total,
        };
        Ok(gone)
    }

    /// Lets all elements go.
    pub fn clear(&mut self)
        ensures empty { self.new ≡ empty_queue self.old.ring.size }
        ensures numbers_before { IsQueue self.old }
        ensures numbers { IsQueue self.new }
    {
        *self = Queue {
            ring: self.ring.cleared(),
            total: 0,
        };
    }

    /// A copy of the element at a place, counted from 0 at the oldest, or none where there is none.
    #[tactic(auto, using(crate::proofs::Promises::copied, crate::proofs::Promises::none_copied))]
    pub fn copy_out<T: Copy>(&self, table: &[T], place: usize) -> Result<Option<T>, QueueFault>
        ensures copied { result ≡ copied_at self.now.ring table.now place }
        ensures there { shown result ≡ over self.now.ring table.now (nat_lt place self.now.ring.count) }
        ensures numbers { IsQueue self.now }
    {
        check_table(self.ring, table)?;
        if place >= self.ring.count() {
            return Ok(None);
        }
        Ok(Some(table[self.ring.index(place)]))
    }
}

// The octets of the elements of a part of a table.
fn octets_in<T: Octets>(part: &[T]) -> usize
    requires { length part.now ≤ largest_table }
    ensures sum { result ≡ sum_by T.octets part.now }
    ensures small { result ≤ most_octets * largest_table }
{
    part.iter().map(|x| x.octet_count() as usize).sum()
}

// The octets of the first n elements. They lie in one part of the table, or in two where they go past its end, and each
// part is summed by itself: a chain of them would ask at each element which part it is in.
fn octets_of_first<T: Octets>(ring: Ring, table: &[T], n: usize) -> usize
    requires whole { length table.now ≡ ring.size }
    requires small { ring.size ≤ largest_table }
    requires few { n ≤ ring.count }
    ensures { result ≡ sum_by T.octets (take n (queued ring table.now)) }
{
    let (round, ahead) = table.split_at(ring.first());
    if n <= ahead.len() {
        octets_in(&ahead[..n])
    } else {
        octets_in(ahead) + octets_in(&round[..n - ahead.len()])
    }
}

// Refuses a table that has not the size that the ring was made for.
fn check_table<T>(ring: Ring, table: &[T]) -> Result<(), QueueFault>
    ensures answer { result ≡ over ring table.now tt }
    ensures size { OnOk result (length table.now ≡ ring.size) }
    ensures sound { Sound ring }
{
    if table.len() == ring.size() {
        Ok(())
    } else {
        Err(QueueFault::Table)
    }
}
