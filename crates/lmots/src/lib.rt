// LM-OTS: one-time signatures by chains of hashes, as RFC 8554 defines them (type 4, 34 chains).
#![tactic(auto)]

mod beside;
mod chain;
pub mod checking;
pub mod digits;
pub mod hashes;
mod lanes;
pub mod leaf;
pub mod material;
pub mod one_time;
mod order;
mod rows;
mod run;
pub mod secret;
pub mod signing;
pub mod words;
