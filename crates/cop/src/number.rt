//! The laws of frame numbers.
ghost use Rattle.cop.specs.Number.{NumberLaws};

/// Stands for the laws of frame numbers of every width: what the distance of two numbers tells of their places and of
/// their order. The machines use them at a width of 8 bits.
#[tactic(auto, using(crate::proofs::Numbers::number_laws))]
pub fn numbers_hold()
    ensures { NumberLaws }
{}
