//! The directives of a supervisory unit: link establishment, report request, SET V(R) and source id.
//!
//! The first three bits of a directive are its name, and the name decides the fields that follow. Reading tries the
//! name, then whether the octets end inside the directive, then reserved codes and spare bits, then ranges. Reading
//! and writing undo each other, octet for octet.
#![tactic(auto)]

pub mod directive;
pub mod fault;
pub mod link;
pub mod packed;
pub mod rate;
pub mod reserved;
mod text;
