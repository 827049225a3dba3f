// Tests of the library `labels`, in a crate of their own so that they do not prove it again.
#![tactic(auto)]

pub mod ranked;
#[cfg(test)]
mod tests;
