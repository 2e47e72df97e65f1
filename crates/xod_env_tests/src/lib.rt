//! Tests of the environment over its public calls alone.
//!
//! Nothing here is part of a program. Expected bytes and answers are written out by hand, as docs/FORMATS.md has them.
#![tactic(auto)]

#[cfg(test)]
mod tests;
