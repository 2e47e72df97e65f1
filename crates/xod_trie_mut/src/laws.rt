//! Laws of tries in memory.
//!
//! Each is a function that does nothing and ensures the law, so that a reader finds it among the contracts.
ghost use Rattle.std.specs.Prelude.{◌≡◌, ◌≤◌, ℕ, List, IfSome};
ghost use Rattle.xod_block.specs.Addresses.{number_of};
ghost use Rattle.xod_block.specs.Maps.{RecordsAt, BranchesEverywhere, RisesEverywhere};
ghost use Rattle.xod_trie.specs.declared.branch.Branch.{Branch};
ghost use Rattle.xod_trie_mut.specs.Own.{TrieView, IsSound, mut_map, with_own};

/// Branches in memory are records like those of a log: child bytes rise, and each node has a value and one child, or two
/// children. So what is a law of the maps of tries is one of tries in memory.
pub fn own_branches_are_records()
    ensures rises { (own : List Branch) (records : RecordsAt)
        → RisesEverywhere records → RisesEverywhere (with_own own records) }
    ensures branches { (own : List Branch) (records : RecordsAt)
        → BranchesEverywhere records → BranchesEverywhere (with_own own records) }
{}

/// The map of a trie in memory reads no record above the root that the trie was made over.
pub fn records_below_the_root_suffice()
    ensures { (trie : TrieView) (old new : RecordsAt) → IsSound trie
        → IfSome trie.base (λ root. (at : ℕ) → at ≤ number_of root → old at ≡ new at)
        → mut_map trie old ≡ mut_map trie new }
{}
