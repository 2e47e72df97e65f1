//! The block of a commit.
ghost use Rattle.std.specs.Prelude.{◌≡◌, ◌≢◌, ◌<◌, ◌≤◌, ◌↔◌, ◌^◌, ◌+◌, ◌-◌, ◌++◌, ℕ, true, length, drop, None, Some, Err, IsTrue, IsSome, IfSome, IfOk, OnOk, OnErr};
ghost use Rattle.std.specs.FinMap.{empty, entries, get};
ghost use Rattle.xod_base.specs.declared.causes.Place.{Place};
ghost use Rattle.xod_base.specs.declared.causes.ReadError.TheVariants.{Damaged};
ghost use Rattle.xod_base.specs.Views.{CountsFaults};
ghost use Rattle.xod_block.specs.Addresses.{number_of};
ghost use Rattle.xod_block.specs.Bodies.{with_block};
ghost use Rattle.xod_block.specs.Fetches.{Stays};
ghost use Rattle.xod_block.specs.Records.{Fits, spelling};
ghost use Rattle.xod_overlay.specs.Marks.{overlaid, touched};
ghost use Rattle.xod_root.specs.Roots.{root_record};
ghost use Rattle.xod_trie.specs.Tries.{trie_map};
ghost use Rattle.xod_trie_mut.specs.Changes.{KeysFit};
ghost use Rattle.xod_trie_mut.specs.Damaged.{IsBadPlace};
ghost use Rattle.xod_trie_mut.specs.Saves.{further};
ghost use Rattle.xod_commit.specs.Blocks.{Fit, all_begin_before, have_tree_numbers};

use crate::trees::{Building, build_trees};
use std::alloc::Global;
use xod_base::{Bytes, Memory, ReadError};
use xod_block::{Address, Fetch};
use xod_overlay::{Overlay, touched_keys_decide};
use xod_root::{RootList, encode_root};
use xod_trie_mut::a_block_keeps_what_it_has;

/// A block, and the roots of the commit that writes it.
#[derive(Debug, Drop)]
pub struct Built {
    /// The new records, and last the root record.
    pub block: Bytes,
    /// How far before the end of the block its root record begins.
    pub back: u32,
    /// Where each tree begins then.
    pub roots: RootList,
}

/// Puts the root record behind a block, and answers how many bytes it has.
fn put_root(alloc: Global, block: &mut Bytes, commit: u64, roots: &RootList) -> Result<u32, Memory>
    ensures put { OnOk result (block.new
        ≡ block.old ++ spelling (root_record commit roots.now)) }
    ensures back { IfOk result (λ back.
        back ≡ length (spelling (root_record commit roots.now))) }
    ensures fits { OnOk result (Fits (root_record commit roots.now)) }
    ensures refused { OnErr result (block.new ≡ block.old) }
{
    let start = block.len();
    encode_root(block, alloc, commit, roots)?;
    Ok((block.len() - start) as u32)
}

/// The block of a commit with a number: the new records of each tree that has touched keys, trees by rising number and
/// children before their parents, and last the root record. Its first byte is to stand at `at`.
///
/// It only reads. What it answers is to be written where `at` says, behind all that the roots reach.
pub fn build_block<F: Fetch>(
    alloc: Global,
    fetch: &mut F,
    roots: &RootList,
    commit: u64,
    at: Address,
    changes: &Overlay,
) -> Result<Built, ReadError>
    requires numbered { have_tree_numbers (entries roots.now) ≡ true }
    requires below { all_begin_before at (entries roots.now) ≡ true }
    requires small { at.at < 2 ^ 63 }
    requires fit { Fit (touched changes.now) }
    requires keys_fit { IsTrue (F.tells fetch.old) → (tree : ℕ)
        → IfSome (trie_map (F.records fetch.old) (get roots.now tree)) KeysFit }

    // Over the records before it and the block, each tree is the one before with its touched keys.
    ensures trees { IsTrue (F.tells fetch.old) → (tree : ℕ)
        → IfSome (trie_map (F.records fetch.old) (get roots.now tree)) (λ map.
        IfOk result (λ built. trie_map
        (with_block (number_of at) built.block (F.records fetch.old)) (get built.roots tree)
        ≡ Some (overlaid map (touched changes.now tree)))) }
    ensures unlisted_exactly_where_empty { IsTrue (F.tells fetch.old) → (tree : ℕ)
        → touched changes.now tree ≢ empty
        → IfSome (trie_map (F.records fetch.old) (get roots.now tree)) (λ map.
        IfOk result (λ built. (get built.roots tree ≡ None)
        ↔ (overlaid map (touched changes.now tree) ≡ empty))) }
    ensures untouched_trees_keep_their_roots { (tree : ℕ) → touched changes.now tree ≡ empty
        → IfOk result (λ built. get built.roots tree ≡ get roots.now tree) }
    ensures numbered { IfOk result (λ built. have_tree_numbers (entries built.roots) ≡ true) }

    // The block ends with the root record, and each root that it lists begins before it.
    ensures root { IfOk result (λ built. drop (length built.block - built.back) built.block
        ≡ spelling (root_record commit built.roots)) }
    ensures root_fits { IfOk result (λ built. Fits (root_record commit built.roots)) }
    ensures some { IfOk result (λ built. 0 < built.back) }
    ensures within { IfOk result (λ built. built.back ≤ length built.block) }
    ensures below_root { IfOk result (λ built. all_begin_before
        (further at (length built.block - built.back)) (entries built.roots) ≡ true) }

    ensures counts { CountsFaults (F.faults fetch.old) (F.faults fetch.new) result }
    ensures damaged_only_where_bytes_are { IsTrue (F.tells fetch.old) → (place : Place)
        → result ≡ Err (Damaged place) → IsBadPlace (F.records fetch.old) place }
    ensures never_damaged { IsTrue (F.tells fetch.old)
        → ((tree : ℕ) → IsSome (trie_map (F.records fetch.old) (get roots.now tree)))
        → (place : Place) → result ≡ Err (Damaged place) → ⊥ }
    ensures stays { Stays F.tells F.records F.refs F.faults fetch.old fetch.new }
{
    touched_keys_decide();
    a_block_keeps_what_it_has();
    let Building { mut block, roots } = build_trees(alloc, fetch, roots, at, changes)?;
    let back = put_root(alloc, &mut block, commit, &roots)?;
    Ok(Built { block, back, roots })
}
