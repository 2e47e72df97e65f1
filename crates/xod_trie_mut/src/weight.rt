//! How many bytes the branches in memory hold, so that those that no root reaches are let go of in time.
//!
//! No clause speaks of it: it decides when a trie is put anew, and never what it has.

use crate::own_branch::OwnBranch;

/// How many times what it held when it was last put anew a list of branches may hold, and how much more.
const FACTOR: usize = 6;

const SLACK: usize = 1 << 20;

/// What a link in memory takes.
const LINK: usize = 24;

/// The bytes of the branches that were weighed, the first ones of a list.
#[derive(Debug, Drop)]
pub struct Weight {
    counted: usize,
    held: usize,
    light: usize,
}

/// About how many bytes a branch holds.
fn bytes_of(branch: &OwnBranch) -> usize {
    let value = match branch.value() {
        None => 0,
        Some(value) => value.len(),
    };
    let links = branch.children().len().saturating_mul(LINK);
    branch
        .key()
        .len()
        .saturating_add(value)
        .saturating_add(links)
}

impl Weight {
    /// That of no branch.
    pub fn new() -> Self {
        Weight {
            counted: 0,
            held: 0,
            light: 0,
        }
    }

    /// That of a list that was just put anew.
    pub fn of(own: &[OwnBranch]) -> Self {
        let mut weight = Weight::new();
        weight.add(own);
        weight.light = weight.held;
        weight
    }

    /// Weighs the branches of a list that were not weighed yet.
    pub fn add(&mut self, own: &[OwnBranch]) {
        for branch in own.iter().skip(self.counted) {
            self.held = self.held.saturating_add(bytes_of(branch));
        }
        self.counted = own.len();
    }

    /// Whether they hold many times what they held when they were last put anew.
    pub fn is_heavy(&self) -> bool {
        self.held > self.light.saturating_mul(FACTOR).saturating_add(SLACK)
    }
}
