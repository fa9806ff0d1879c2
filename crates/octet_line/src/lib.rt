//! A line of octets: frames laid end to end, each behind two octets with its length, in a ring of lent memory.
//!
//! It never loses a frame. A frame that comes to the ring's end goes on at its start, so no octet is wasted or moved.
#![tactic(auto)]

pub mod octets;
