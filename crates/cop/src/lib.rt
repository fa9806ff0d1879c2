//! The numbers of the sending and the receiving machine of COP-P.
//!
//! Both machines are plain numbers with what always holds of them in their types. A call takes the numbers and answers
//! new ones, so a caller that could not put its frame on the line simply keeps the old ones. Neither machine knows of
//! octets, memory or lines.
#![tactic(auto)]

pub mod number;
pub mod receiver;
pub mod receiving;
pub mod sender;
pub mod sending;
pub mod step;
