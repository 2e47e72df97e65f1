//! Tests of whole runs, by the top call: over a source and a sink that fail, and over inputs too large for a file.
//!
//! Nothing here is part of the program. Whole runs over other inputs are compared by `tests/run` at the top.
#![tactic(auto)]

#[cfg(test)]
mod tests;
