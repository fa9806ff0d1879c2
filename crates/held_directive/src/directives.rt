//! Queues of directives.
//!
//! A queue of directives is the numbers of a queue and a table of directives. The caller lends the table to each call,
//! which tries first whether it fits, so the two stay two values. The calls hand on to those of any queue, and
//! stay by name: an end calls for units and for directives in the same way.
ghost use Rattle.std.specs.Prelude.{◌≡◌, ◌<◌, true, is_some, nat_lt, MatchResult};
ghost use Rattle.queue.specs.Counts.{IsQueue};
ghost use Rattle.queue.specs.Queue.{Added, Fitted, Freed, Keeps, fitting};
ghost use Rattle.held_directive.specs.Directives.{CopiesDirective, directive_octets};

use super::held::HeldDirective;
use queue::fault::QueueFault;
use queue::queue::Queue;

/// The lent memory of a queue of directives: an entry for each place.
#[derive(Drop)]
pub struct Directives<'a> {
    pub entries: &'a mut [HeldDirective],
}

/// Whether the table has the size that the queue was made for.
pub fn directives_fit(queue: &Queue, directives: &Directives<'_>) -> bool
    ensures fits { Fitted directive_octets queue.now directives.now.entries.now result }
    ensures numbers { IsQueue queue.now }
{
    queue.fits(directives.entries)
}

/// Queues a directive behind the others, and answers how many there are then.
pub fn hold_directive(
    queue: &mut Queue,
    directives: &mut Directives<'_>,
    directive: HeldDirective,
) -> Result<usize, QueueFault>
    ensures held { Added queue.old.ring directives.old.entries.now directive result queue.new.ring directives.new.entries.now }
    ensures keeps { Keeps directive_octets queue.old directives.old.entries.now result queue.new directives.new.entries.now }
    ensures numbers_before { IsQueue queue.old }
    ensures numbers { IsQueue queue.new }
{
    queue.add(directives.entries, directive)
}

/// Copies the octets of the directive at a place, counted from 0 at the oldest, to the front of a buffer that has room
/// for them, and answers how many they are, or none where there is no directive at the place. A buffer without room is
/// refused as a table of the wrong size is.
pub fn copy_directive(
    queue: &Queue,
    directives: &Directives<'_>,
    place: usize,
    buffer: &mut [u8],
) -> Result<Option<usize>, QueueFault>
    ensures copied { CopiesDirective queue.now.ring directives.now.entries.now place buffer.old buffer.new result }
    ensures there { MatchResult result (λ o. is_some o ≡ nat_lt place queue.now.ring.count) (λ _. fitting queue.now.ring directives.now.entries.now ≡ true → place < queue.now.ring.count) }
    ensures numbers { IsQueue queue.now }
{
    let Some(directive) = queue.copy_out(directives.entries, place)? else {
        return Ok(None);
    };
    let count = directive.unpack(buffer).ok_or(QueueFault::Table)?;
    Ok(Some(count))
}

/// Lets the first n directives go, or all where there are fewer, and answers how many went.
pub fn free_directives(
    queue: &mut Queue,
    directives: &Directives<'_>,
    n: usize,
) -> Result<usize, QueueFault>
    ensures freed { Freed queue.old.ring directives.now.entries.now n result queue.new.ring }
    ensures keeps { Keeps directive_octets queue.old directives.now.entries.now result queue.new directives.now.entries.now }
    ensures numbers_before { IsQueue queue.old }
    ensures numbers { IsQueue queue.new }
{
    queue.free(directives.entries, n)
}
