//! The new records of all trees of a commit, tree by tree.
ghost use Rattle.std.specs.Prelude.{◌≡◌, ◌<◌, ◌^◌, ℕ, IsTrue, IsSome, IfSome, IfOk, IfErr};
ghost use Rattle.std.specs.FinMap.{get};
ghost use Rattle.xod_base.specs.Views.{CountsFaults};
ghost use Rattle.xod_block.specs.Fetches.{Stays};
ghost use Rattle.xod_overlay.specs.Marks.{touched};
ghost use Rattle.xod_trie.specs.Tries.{trie_map};
ghost use Rattle.xod_trie_mut.specs.Changes.{KeysFit};
ghost use Rattle.xod_trie_mut.specs.Saves.{IsBelow};
ghost use Rattle.xod_trie_mut.specs.Stops.{Breaks};
ghost use Rattle.xod_commit.specs.Blocks.{AreNumbered, Fit, FitTouches, IsTreeNumber};
ghost use Rattle.xod_commit.specs.Trees.{AreBelow, AreBuilt, IsAdded};

use crate::tree::{save_tree, touched_list};
use std::alloc::Global;
use xod_base::{Bytes, ReadError};
use xod_block::{Address, Fetch};
use xod_overlay::{Overlay, touched_keys_decide};
use xod_root::RootList;
use xod_trie_mut::a_block_keeps_what_it_has;

/// The number of the last tree. The first one is 1.
const LAST_TREE: u8 = 8;

/// A block without its root record, and the roots of its trees and of those that stand before it.
#[derive(Debug, Drop)]
pub struct Building {
    pub block: Bytes,
    pub roots: RootList,
}

/// Puts the new records of a tree behind the block, and lists its root. A tree without touches stays as it is.
fn add_tree<F: Fetch>(
    alloc: Global,
    fetch: &mut F,
    at: Address,
    changes: &Overlay,
    tree: u8,
    building: &mut Building,
) -> Result<(), ReadError>
    requires number { IsTreeNumber tree }
    requires numbered { AreNumbered building.old.roots }
    requires below { IsBelow (get building.old.roots tree) at }
    requires small { at.at < 2 ^ 63 }
    requires fit { FitTouches (touched changes.now tree) }
    requires keys_fit { IsTrue (F.tells fetch.old)
        → IfSome (trie_map (F.records fetch.old) (get building.old.roots tree)) KeysFit }
    ensures added { IfOk result (λ done. IsAdded at (F.tells fetch.old) (F.records fetch.old)
        (touched changes.now tree) tree building.old building.new) }
    ensures breaks { IfErr result (Breaks (F.tells fetch.old) (F.records fetch.old)
        (IsSome (trie_map (F.records fetch.old) (get building.old.roots tree)))) }
    ensures counts { CountsFaults (F.faults fetch.old) (F.faults fetch.new) result }
    ensures stays { Stays F.tells F.records F.refs F.faults fetch.old fetch.new }
{
    touched_keys_decide();
    let list = touched_list(alloc, changes, tree)?;
    if list.is_empty() {
        return Ok(());
    }
    let root = building.roots.get(tree);
    let now = save_tree(alloc, fetch, root, at, list.as_slice(), &mut building.block)?;
    building.roots.set(tree, now);
    Ok(())
}

/// The new records of all trees, trees by rising number, and the roots that they have then.
pub fn build_trees<F: Fetch>(
    alloc: Global,
    fetch: &mut F,
    roots: &RootList,
    at: Address,
    changes: &Overlay,
) -> Result<Building, ReadError>
    requires numbered { AreNumbered roots.now }
    requires below { AreBelow at roots.now }
    requires small { at.at < 2 ^ 63 }
    requires fit { Fit (touched changes.now) }
    requires keys_fit { IsTrue (F.tells fetch.old) → (tree : ℕ)
        → IfSome (trie_map (F.records fetch.old) (get roots.now tree)) KeysFit }
    ensures built { IfOk result (λ building. AreBuilt at (F.tells fetch.old) (F.records fetch.old)
        (touched changes.now) roots.now 9 building) }
    ensures breaks { IfErr result (Breaks (F.tells fetch.old) (F.records fetch.old)
        ((tree : ℕ) → IsSome (trie_map (F.records fetch.old) (get roots.now tree)))) }
    ensures counts { CountsFaults (F.faults fetch.old) (F.faults fetch.new) result }
    ensures stays { Stays F.tells F.records F.refs F.faults fetch.old fetch.new }
{
    touched_keys_decide();
    a_block_keeps_what_it_has();
    let mut building = Building {
        block: Bytes::new(alloc),
        roots: roots.copied(),
    };
    'trees: for tree in 1..LAST_TREE + 1 {
        add_tree(alloc, fetch, at, changes, tree, &mut building)?;
    }
    Ok(building)
}
