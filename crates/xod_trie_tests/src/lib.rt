//! Tests of tries and overlays over their public calls alone.
//!
//! Nothing here is part of a program. Expected bytes are written out by hand, as docs/FORMATS.md has them; what a trie
//! holds is compared with a `BTreeMap`.
#![tactic(auto)]

#[cfg(test)]
mod tests;
