//! Tests of the crates under a store: sources and sinks, volumes, records and the log, over their public calls alone.
//!
//! They stand here so that each of those crates is proved once, without its tests. The expected bytes are written out by
//! hand, as docs/FORMATS.md has them, and no clause is asked for a fact that is tested here.
#![tactic(auto)]

#[cfg(test)]
mod tests;
