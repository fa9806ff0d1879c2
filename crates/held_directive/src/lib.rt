//! Directives as a queue keeps them: their octets, in a table of their own.
#![tactic(auto)]

pub mod directives;
pub mod held;
