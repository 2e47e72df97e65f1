//! Tests of transactions over a store, beside the same acts on plain rows.
//!
//! Nothing here is part of a program. Expected bytes and answers are written out by hand, as docs/FORMATS.md has them.
#![tactic(auto)]

#[cfg(test)]
mod tests;
