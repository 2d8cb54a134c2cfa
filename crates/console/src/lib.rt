// The console: answers the calls of a script.
#![tactic(auto)]

mod key_calls;
mod opening;
pub mod session;
mod store_calls;
mod target;
