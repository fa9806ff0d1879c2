//! Supervisory units (SPDUs): reports, and the reader that hands out the items of a unit.
//!
//! A unit is a report of two octets, or a variable unit: a header octet with type and length, and a data field of at
//! most 15 octets. Types 1, 2 and 3 are octets to this layer; Type 5 holds directives end to end.
#![tactic(auto)]

pub mod item;
pub mod items;
pub mod report;
pub mod spdu;
