// Labels of exposures: their order, their bytes, slips, refusals and faults.
#![tactic(auto)]

pub mod fault;
pub mod frame_number;
pub mod item;
pub mod kind;
pub mod kinds;
pub mod label;
pub mod order;
pub mod reading;
pub mod refusal;
pub mod slip;
pub mod smallest;
pub mod trigger_stamp;
