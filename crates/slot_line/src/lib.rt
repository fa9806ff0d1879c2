//! A line of slots: each frame in a slot of 2,048 octets of lent memory, and its length in a lent table.
//!
//! It never loses a frame. The slots are used round and round, so putting and taking copy one frame and move nothing.
#![tactic(auto)]

pub mod slots;
