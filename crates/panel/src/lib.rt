// Agreement of boards on a label.
#![tactic(auto)]

mod calls;
mod counting;
mod heard;
mod held;
mod memory;
mod phase;
mod run;
mod steps;

pub use held::Panel;
