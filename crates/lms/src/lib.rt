// LMS: trees of one-time keys, as RFC 8554 defines them (types 5 and 6).
#![tactic(auto)]

pub mod checking;
pub mod kind;
pub mod many_time;
mod nodes;
pub mod secret;
mod signing;
mod tree;
