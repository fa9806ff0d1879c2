//! One ring queue for every kind of element, over a lent table.
//!
//! A queue is plain numbers: those of a ring, which say where in the table its elements lie, and how many octets the
//! elements have together. The table is the caller's, who lends it to each call. So one type of queue holds elements
//! of any type that is `Copy`, and nothing is allocated. Adding and looking touch one element, and freeing reads just
//! the elements that leave, however many are queued.
#![tactic(auto)]

pub mod fault;
pub mod queue;
