//! What a line is: the frames that wait in it, oldest first, and how many may wait.
//!
//! A line is what a modem, a wire or a test puts in its place. Code above any line is proved against the trait alone:
//! it knows the list, the limit, and which losses the line may have. A layer holds a line and is again a line.
#![tactic(auto)]

pub mod fade;
pub mod fault;
pub mod line;
pub mod memory;
pub mod transfer;
