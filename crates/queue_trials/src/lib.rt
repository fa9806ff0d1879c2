//! Queues, run: units through a small table and store, and directives through a small table.
#![tactic(auto)]

use frame::header::Quality;
use held_directive::directives::{Directives, copy_directive, free_directives, hold_directive};
use held_directive::held::HeldDirective;
use queue::fault::QueueFault;
use queue::queue::Queue;
use unit::fault::UnitFault;
use unit::slip::Slip;
use unit::units::{Units, copy_unit, free_units, hold};

/// What came of units that went through a queue of two.
#[derive(Clone, Copy, PartialEq, Eq, Debug)]
pub struct Outcome {
    /// Units that were queued at most at one time.
    pub most: usize,
    /// Octets of the units that are queued at the end.
    pub total: usize,
    /// The port of the oldest unit at the end.
    pub oldest: u8,
    /// The first octet of the youngest unit at the end.
    pub youngest: u8,
}

// Queues units of 1, 2 and 3 octets on ports 1, 2 and 3 in a queue of two, letting the first go before the third.
fn three_through_two() -> Result<Outcome, UnitFault> {
    let mut slips = [Slip::blank(); 2];
    let mut store = [0u8; 4096];
    let mut buffer = [0u8; 2043];
    let mut queue = Queue::new(2)?;
    let mut units = Units {
        slips: &mut slips,
        store: &mut store,
    };
    hold(
        &mut queue,
        &mut units,
        1,
        Quality::SequenceControlled,
        &[10],
    )?;
    let most = hold(&mut queue, &mut units, 2, Quality::Expedited, &[20, 21])?;
    let _ = free_units(&mut queue, &units, 1)?;
    hold(
        &mut queue,
        &mut units,
        3,
        Quality::SequenceControlled,
        &[30, 31, 32],
    )?;
    let oldest = copy_unit(&queue, &units, 0, &mut buffer)?.map_or(0, |slip| slip.port);
    let _ = copy_unit(&queue, &units, 1, &mut buffer)?;
    Ok(Outcome {
        most,
        total: queue.total(),
        oldest,
        youngest: buffer[0],
    })
}

// The last of the first octets of a buffer, so many of them, or 0 of a buffer that has not as many.
fn last_of(octets: &[u8], length: usize) -> u8 {
    octets.get(length.saturating_sub(1)).copied().unwrap_or(0)
}

// Packs a directive, which is refused as a full queue where it is too long.
fn pack(octets: &[u8]) -> Result<HeldDirective, QueueFault> {
    HeldDirective::pack(octets).ok_or(QueueFault::Full)
}

// Packs two directives into a queue, and answers the second's length and last octet.
fn second_of_two(first: &[u8], second: &[u8]) -> Result<(usize, u8), QueueFault> {
    let first = pack(first)?;
    let second = pack(second)?;
    let mut table = [first; 2];
    let mut queue = Queue::new(2)?;
    queue.add(&mut table, first)?;
    queue.add(&mut table, second)?;
    let out = queue.copy_out(&table, 1)?.unwrap_or(first);
    let mut octets = [0u8; 16];
    let length = out.unpack(&mut octets).unwrap_or(0);
    Ok((length, last_of(&octets, length)))
}

// Queues three directives in a queue of two, letting the first go before the third, and answers the third's length and
// last octet.
fn third_of_three(first: &[u8], second: &[u8], third: &[u8]) -> Result<(usize, u8), QueueFault> {
    let mut entries = [HeldDirective::blank(); 2];
    let mut directives = Directives {
        entries: &mut entries,
    };
    let mut queue = Queue::new(2)?;
    let mut buffer = [0u8; 16];
    for octets in [first, second] {
        hold_directive(&mut queue, &mut directives, pack(octets)?)?;
    }
    let _ = free_directives(&mut queue, &directives, 1)?;
    hold_directive(&mut queue, &mut directives, pack(third)?)?;
    let length = copy_directive(&queue, &directives, 1, &mut buffer)?.unwrap_or(0);
    Ok((length, last_of(&buffer, length)))
}

#[cfg(test)]
mod tests {
    use super::*;
    use held_directive::directives::directives_fit;
    use std::test::Fail;

    #[test]
    fn units_come_in_their_order(rt: HostRuntime) {
        assert_eq!(rt;
            three_through_two(),
            Ok(Outcome {
                most: 2,
                total: 5,
                oldest: 2,
                youngest: 30,
            })
        );
    }

    #[test]
    fn directives_come_whole(rt: HostRuntime) {
        assert_eq!(rt; second_of_two(&[1, 2, 3], &[4, 5, 6, 7]), Ok((4, 7)));
    }

    #[test]
    fn directives_go_through_a_queue(rt: HostRuntime) {
        assert_eq!(rt;
            third_of_three(&[1, 2, 3], &[4, 5], &[6, 7, 8, 9]),
            Ok((4, 9))
        );
    }

    #[test]
    fn a_queue_of_directives_is_as_large_as_its_table(rt: HostRuntime) -> Result<(), Fail> {
        let mut entries = [HeldDirective::blank(); 1];
        let directives = Directives {
            entries: &mut entries,
        };
        assert_eq!(rt; directives_fit(&Queue::new(1)?, &directives), true);
        let other = Queue::new(2)?;
        assert_eq!(rt; directives_fit(&other, &directives), false);
        assert_eq!(rt;
            copy_directive(&other, &directives, 0, &mut [0; 16]),
            Err(QueueFault::Table)
        );
        Ok(())
    }

    #[test]
    fn a_third_finds_no_place(rt: HostRuntime) -> Result<(), Fail> {
        let mut slips = [Slip::blank(); 1];
        let mut store = [0u8; 2048];
        let mut units = Units {
            slips: &mut slips,
            store: &mut store,
        };
        let mut queue = Queue::new(1)?;
        assert_eq!(rt;
            hold(&mut queue, &mut units, 8, Quality::Expedited, &[1]),
            Err(UnitFault::Unit)
        );
        assert_eq!(rt;
            hold(&mut queue, &mut units, 7, Quality::Expedited, &[1]),
            Ok(1)
        );
        assert_eq!(rt;
            hold(&mut queue, &mut units, 7, Quality::Expedited, &[1]),
            Err(UnitFault::Full)
        );
        Ok(())
    }
}
