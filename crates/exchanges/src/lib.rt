// Backplanes that join boards, and exchanges over them.
#![tactic(auto)]

pub mod backplane;
pub mod cut_lines;
pub mod exchange;
pub mod fitting;
pub mod maps;
mod path;
mod plain;
mod rounds;
pub mod tree;
mod trees;
pub mod two_faced;
mod votes;
