// Bytes: their parts, and the ways in which numbers and bytes are written.
#![tactic(auto)]

pub mod buffer;
pub mod hex;
pub mod numbers;
pub mod search;
