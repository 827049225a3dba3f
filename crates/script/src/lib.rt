// Scripts: what the boards propose and what goes wrong between them, as bytes and in memory.
#![tactic(auto)]

mod fields;
mod forming;
mod heads;
pub mod lists;
pub mod model;
pub mod reading;
mod records;
mod rows;
mod rules;
pub mod running;
pub mod script_plane;
mod script_rules;
mod store;
mod survey;
mod tally;
pub mod writing;
