//! Tests that cross crates, each a table of inputs with what the crates must answer.
//!
//! Nothing here is part of the program. The expected texts stand in docs/FORMATS.md or follow from it by hand.
#![tactic(auto)]

#[cfg(test)]
mod tests;
