// Tests of the library `script`, in a crate of their own so that they do not prove it again.
#![tactic(auto)]

#[cfg(test)]
mod tests;
