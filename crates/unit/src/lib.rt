//! Units in queues: slips in a table, and their octets in a store beside it.
#![tactic(auto)]

pub mod fault;
pub mod slip;
pub mod units;
