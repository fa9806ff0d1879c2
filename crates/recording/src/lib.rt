//! A recording of radio frames as text: one frame a line, in hexadecimal.
//!
//! An octet is two adjacent digits, upper or lower case. Blanks may stand before, between and after octets, and `#`
//! starts a comment to the end of the line.
#![tactic(auto)]

mod character;
pub mod fault;
mod place;
pub mod reader;
