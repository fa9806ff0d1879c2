//! What an inspector of recordings counts and compares.
//!
//! The program prints; the values that it prints are made here, under contracts.
#![tactic(auto)]

pub mod rewriting;
pub mod summary;
