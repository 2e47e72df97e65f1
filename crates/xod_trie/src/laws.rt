//! Laws of the maps of tries.
//!
//! Each is a function that does nothing and ensures the law, so that a reader finds it among the contracts.
ghost use Rattle.std.specs.Prelude.{◌≡◌, ◌↔◌, ℕ, Bool, List, Option, Some, None, IsSome, IsTrue, IfSome, IfNone};
ghost use Rattle.std.specs.FinMap.{get};
ghost use Rattle.xod_base.specs.declared.causes.Place.{Place};
ghost use Rattle.xod_block.specs.declared.address.Address.{Address};
ghost use Rattle.xod_block.specs.Addresses.{number_of};
ghost use Rattle.xod_block.specs.Maps.{RecordsAt, RisesEverywhere, BranchesEverywhere, OnlyMore, map_at};
ghost use Rattle.xod_trie.specs.declared.branch.Branch.{Branch};
ghost use Rattle.xod_trie.specs.Branches.{IsBranch, HaveChildren, branch_of, value_by};
ghost use Rattle.xod_trie.specs.Damage.{IsDamaged};
ghost use Rattle.xod_trie.specs.Least.{IsLeast, least, passes};
ghost use Rattle.xod_trie.specs.Shapes.{HaveSameShape};
ghost use Rattle.xod_trie.specs.Tries.{TrieMap, trie_map, value_at};

/// Where there is a trie's map, it has at each key the value that the record of the root leads to.
pub fn tries_are_seen_by_their_values()
    ensures { (records : RecordsAt) (root : Address) (key : List ℕ)
        → IfSome (trie_map records (Some root)) (λ map.
        get map key ≡ value_at records (number_of root) key) }
{}

/// The value of a key is found by the branch that stands at the address.
pub fn value_by_the_branch()
    ensures { (records : RecordsAt) (at : ℕ) (branch : Branch) (key : List ℕ)
        → IsSome (map_at records at) → IsBranch (records at) branch
        → value_at records at key ≡ value_by (value_at records) branch key }
{}

/// A branch has a map exactly where each of its children stands below it and has one.
pub fn map_by_the_children()
    ensures { (records : RecordsAt) (at : ℕ) (branch : Branch)
        → branch_of (records at) ≡ Some branch
        → IsSome (map_at records at) ↔ HaveChildren records at branch.children }
{}

/// A trie that has a map keeps it where each record that stood up to its root stays.
pub fn more_records_change_no_trie()
    ensures { (old new : RecordsAt) (root : Address) → OnlyMore old new (number_of root)
        → IsSome (trie_map old (Some root))
        → trie_map new (Some root) ≡ trie_map old (Some root) }
{}

/// A trie with a damaged place has no map.
pub fn damaged_tries_have_no_map()
    ensures { (records : RecordsAt) (root : Option Address) (place : Place)
        → IsDamaged records root place → trie_map records root ≡ None }
{}

/// The least pair that passes is one of the map, and none that passes has a lower key; where there is none, no key of
/// the map passes.
pub fn least_is_the_least()
    ensures some { (strict : Bool) (key : List ℕ) (map : TrieMap)
        → IfSome (least strict key map) (IsLeast (passes strict key) map) }
    ensures none { (strict : Bool) (key : List ℕ) (map : TrieMap) (other : List ℕ)
        → least strict key map ≡ None → IsSome (get map other)
        → IsTrue (passes strict key other) → ⊥ }
{}

/// Two tries with the same map have the same key parts, values and child bytes, from the roots down.
pub fn the_map_determines_the_shape()
    ensures { (ones others : RecordsAt) (at place : Option Address)
        → RisesEverywhere ones → BranchesEverywhere ones
        → RisesEverywhere others → BranchesEverywhere others
        → IsSome (trie_map ones at) → trie_map others place ≡ trie_map ones at
        → HaveSameShape ones others at place }
{}
