// What comes of a script, in words: for programs that run scripts.
#![tactic(auto)]

pub mod error;
pub mod kinds;
mod results;
pub mod storage;
mod stored;
mod trips;
