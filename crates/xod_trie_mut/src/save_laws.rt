//! Laws of what was saved, and of where it stands.
//!
//! Each is a function that does nothing and ensures the law.
ghost use Rattle.std.specs.Prelude.{◌≡◌, ◌<◌, ◌++◌, ℕ, suc, List, length, Option, Some, IsSome, slice_get};
ghost use Rattle.xod_block.specs.declared.address.Address.{Address};
ghost use Rattle.xod_block.specs.Addresses.{number_of};
ghost use Rattle.xod_block.specs.Bodies.{with_block};
ghost use Rattle.xod_block.specs.Maps.{RecordsAt};
ghost use Rattle.xod_trie.specs.declared.branch.Branch.{Branch};
ghost use Rattle.xod_trie.specs.Tries.{trie_map};
ghost use Rattle.xod_trie_mut.specs.Own.{AreOwn, own_address, own_start};
ghost use Rattle.xod_trie_mut.specs.Saves.{IsLowBase, Places, put_behind, put_children, put_within};

use xod_block::Address;

/// A record stands below all branches in memory.
pub fn record_stands_below(at: Address)
    ensures { number_of at < own_start }
{
    let _file = at.file;
    let _place = at.at;
}

/// And so does all that is up to a base.
pub fn base_stands_below(base: Option<Address>)
    ensures { IsLowBase base }
{
    if let Some(base) = base {
        record_stands_below(base);
    }
}

/// The bound on depth in the definition of a save cuts nothing off: what stands at a place of the list is put behind its
/// children, and they are put by the same definition.
pub fn a_branch_is_put_behind_its_children()
    ensures { (places : Places) (base : Option Address) (own before : List Branch) (index : ℕ)
        (branch : Branch) → AreOwn base own → slice_get own index ≡ Some branch
        → put_within (suc (length own)) places own before (own_address index)
        ≡ put_behind places branch
        (put_children (put_within (suc (length own)) places own) before branch.children) }
{}

/// What a save put into a block means the same when more is put behind it, so several tries may share one block.
pub fn a_block_keeps_what_it_has()
    ensures { (start : ℕ) (block more : List ℕ) (records : RecordsAt) (root : Option Address)
        → IsSome (trie_map (with_block start block records) root)
        → trie_map (with_block start (block ++ more) records) root
        ≡ trie_map (with_block start block records) root }
{}
