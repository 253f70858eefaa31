//! Tests of the whole program, of its parts, and of values and objects, of what no clause says and no case shows: here they
//! cost one proof, while a crate with tests of its own is proved twice.
#![tactic(auto)]

#[cfg(test)]
mod tests;
