//! Version-3 transfer frames: octets to header and data field, and back.
//!
//! Reading takes any octets and answers a frame whose data field is a part of them, or the first rule that they
//! break. Writing takes any frame. Each undoes the other, octet for octet, so a frame has one encoding.
#![tactic(auto)]

pub mod fault;
pub mod frame;
pub mod header;
