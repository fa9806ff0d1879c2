//! The base lines and the fade layer, run: frames go from one kind of line to the other, with and without losses.
#![tactic(auto)]

use line::fade::Fade;
use line::fault::LineFault;
use line::line::Line;
use line::transfer::transfer;

/// What came of a trial.
#[derive(Clone, Copy, PartialEq, Eq, Debug)]
pub struct Outcome {
    /// Frames that the first line granted.
    pub granted: usize,
    /// Frames that waited in the first line before the transfer.
    pub waiting: usize,
    /// Frames that wait in the second line at the end.
    pub arrived: usize,
    /// The frame number of the first frame that arrived.
    pub first: u8,
}

// Puts three frames, numbered 1 to 3, as far as they are granted.
fn put_three<L: Line>(line: &mut L) -> usize {
    let mut granted = 0usize;
    for number in 1..4u8 {
        let frame = [0x8c, 0x05, 0x38, 0x05, number, 0xaa];
        if line.put(&frame).is_ok() {
            granted = granted.saturating_add(1);
        }
    }
    granted
}

// Moves at most four frames from one line to the other.
fn move_all<A: Line, B: Line>(
    from: &mut A,
    to: &mut B,
    buffer: &mut [u8],
) -> Result<(), LineFault> {
    for _ in 0..4u8 {
        if transfer(from, to, buffer)?.is_none() {
            break;
        }
    }
    Ok(())
}

// Three frames over two lines, each under a fade layer that was told to lose so many.
fn relay<A: Line + Drop, B: Line + Drop>(
    from: A,
    to: B,
    lose_from: u64,
    lose_to: u64,
) -> Result<Outcome, LineFault> {
    let mut from = Fade::new(from);
    let mut to = Fade::new(Fade::new(to));
    let mut buffer = [0u8; 2048];
    from.tell(lose_from);
    to.tell(lose_to);
    let granted = put_three(&mut from);
    let (waiting, _) = from.count();
    move_all(&mut from, &mut to, &mut buffer)?;
    let (arrived, _) = to.count();
    let mut oldest = [0u8; 2048];
    let first = match to.take(&mut oldest)? {
        Some(_) => oldest[4],
        None => 0,
    };
    Ok(Outcome {
        granted,
        waiting,
        arrived,
        first,
    })
}

#[cfg(test)]
mod tests {
    use super::*;
    use octet_line::octets::OctetLine;
    use octet_line::octets::making::{make_octets, try_octets};
    use slot_line::slots::SlotLine;
    use slot_line::slots::making::{make_slots, try_slots};
    use std::process::Abort;
    use std::test::Fail;

    const SLOTS: usize = 8192;

    const OCTETS: usize = 8200;

    #[test]
    fn slots_to_octets(rt: HostRuntime) -> Result<(), Fail> {
        let mut store = [0u8; SLOTS];
        let mut lengths = [0u16; 4];
        let mut ring = [0u8; OCTETS];
        try_slots(store.len(), lengths.len(), 4)?;
        try_octets(ring.len(), 4)?;
        let from = make_slots(&mut store, &mut lengths, 4);
        let to = make_octets(&mut ring, 4);
        let outcome = relay(from, to, 0, 0)?;
        assert_eq!(rt;
            outcome,
            Outcome {
                granted: 3,
                waiting: 3,
                arrived: 3,
                first: 1,
            }
        );
        Ok(())
    }

    #[test]
    fn octets_to_slots_with_losses(rt: HostRuntime) -> Result<(), Fail> {
        let mut store = [0u8; SLOTS];
        let mut lengths = [0u16; 4];
        let mut ring = [0u8; OCTETS];
        try_slots(store.len(), lengths.len(), 4)?;
        try_octets(ring.len(), 4)?;
        let to = make_slots(&mut store, &mut lengths, 4);
        let from = make_octets(&mut ring, 4);
        let outcome = relay(from, to, 1, 1)?;
        assert_eq!(rt;
            outcome,
            Outcome {
                granted: 3,
                waiting: 2,
                arrived: 1,
                first: 3,
            }
        );
        Ok(())
    }

    // One frame through an empty line of four.
    fn there_and_back<L: Line + Drop>(rt: &impl Abort, mut line: L) -> Result<(), Fail> {
        let mut buffer = [0u8; 2048];
        line.put(&[0x8c, 0x05, 0x38, 0x05, 7, 0xaa])?;
        assert_eq!(rt; line.count(), (1, 4));
        assert_eq!(rt; line.take(&mut buffer)?, Some(6));
        assert_eq!(rt; buffer[4], 7);
        assert_eq!(rt; line.count(), (0, 4));
        Ok(())
    }

    #[test]
    fn slots_made_in_one_call(rt: HostRuntime) -> Result<(), Fail> {
        let mut store = [0u8; SLOTS];
        let mut lengths = [0u16; 4];
        let mut buffer = [0u8; 2048];
        assert_eq!(rt;
            SlotLine::new(&mut store, &mut lengths, 3).err(),
            Some(LineFault::Memory)
        );
        there_and_back(&rt, SlotLine::new(&mut store, &mut lengths, 4)?)
    }

    #[test]
    fn octets_made_in_one_call(rt: HostRuntime) -> Result<(), Fail> {
        let mut ring = [0u8; OCTETS];
        assert_eq!(rt; OctetLine::new(&mut ring, 3).err(), Some(LineFault::Memory));
        there_and_back(&rt, OctetLine::new(&mut ring, 4)?)
    }

    #[test]
    fn refusals_of_making(rt: HostRuntime) {
        assert_eq!(rt; try_slots(2048, 2, 1), Err(LineFault::Memory));
        assert_eq!(rt; try_slots(0, 0, 0), Err(LineFault::Limit));
        assert_eq!(rt; try_octets(2050, 2), Err(LineFault::Memory));
        assert_eq!(rt; try_octets(0, 0), Err(LineFault::Limit));
    }
}
