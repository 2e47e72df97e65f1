//! One tree of a commit: its touches as changes, and its new records.
ghost use Rattle.std.specs.Prelude.{◌≡◌, ◌<◌, ◌↔◌, ◌^◌, length, map, None, Some, IsTrue, IsSome, IfSome, IfOk, IfErr};
ghost use Rattle.std.specs.FinMap.{empty, entries};
ghost use Rattle.xod_base.specs.Views.{CountsFaults};
ghost use Rattle.xod_block.specs.Addresses.{number_of};
ghost use Rattle.xod_block.specs.Bodies.{with_block, HasGrown};
ghost use Rattle.xod_block.specs.Fetches.{Stays};
ghost use Rattle.xod_overlay.specs.Marks.{touched};
ghost use Rattle.xod_trie.specs.Tries.{trie_map};
ghost use Rattle.xod_trie_mut.specs.Changes.{FitChanges, KeysFit, with_changes};
ghost use Rattle.xod_trie_mut.specs.Saves.{IsBelow, further};
ghost use Rattle.xod_trie_mut.specs.Stops.{Breaks};
ghost use Rattle.xod_commit.specs.Trees.{touch_by};

use std::alloc::Global;
use xod_base::{Bytes, Memory, ReadError};
use xod_block::{Address, Fetch};
use xod_overlay::{Overlay, walks_meet_all_touches};
use xod_trie_mut::{Change, MutTrie};

/// The touches of a tree as changes, by rising key.
pub fn touched_list<'a>(
    alloc: Global,
    changes: &'a Overlay,
    tree: u8,
) -> Result<Vec<Change<'a>>, Memory>
    ensures { IfOk result (λ list. map touch_by list.items ≡ entries (touched changes.now tree)) }
{
    walks_meet_all_touches();
    let mut list = Vec::new(alloc);
    let mut next = changes.next_touched(tree, None);
    'touches: while let Some(touch) = next {
        list.push(Change {
            key: touch.key,
            value: touch.value,
        })?;
        next = changes.next_touched(tree, Some(touch.key));
    }
    Ok(list)
}

/// Makes changes to the trie under a root, puts its new records behind the bytes of a block, of which the first one has
/// an address, and answers the root.
pub fn save_tree<F: Fetch>(
    alloc: Global,
    fetch: &mut F,
    root: Option<Address>,
    at: Address,
    list: &[Change<'_>],
    block: &mut Bytes,
) -> Result<Option<Address>, ReadError>
    requires fit { FitChanges list.now }
    requires keys_fit { IsTrue (F.tells fetch.old)
        → IfSome (trie_map (F.records fetch.old) root) KeysFit }
    requires below { IsBelow root at }
    requires small { at.at < 2 ^ 63 }
    ensures grown { IfOk result (λ now. HasGrown block.old block.new) }
    ensures map { IsTrue (F.tells fetch.old)
        → IfSome (trie_map (F.records fetch.old) root) (λ map. IfOk result (λ now.
        trie_map (with_block (number_of at) block.new (F.records fetch.old)) now
        ≡ Some (with_changes map list.now))) }
    ensures empty { IsTrue (F.tells fetch.old)
        → IfSome (trie_map (F.records fetch.old) root) (λ map. IfOk result (λ now.
        (now ≡ None) ↔ (with_changes map list.now ≡ empty))) }
    ensures root_is_before_the_end { IfOk result (λ now.
        IsBelow now (further at (length block.new))) }
    ensures breaks { IfErr result (Breaks (F.tells fetch.old) (F.records fetch.old)
        (IsSome (trie_map (F.records fetch.old) root))) }
    ensures counts { CountsFaults (F.faults fetch.old) (F.faults fetch.new) result }
    ensures stays { Stays F.tells F.records F.refs F.faults fetch.old fetch.new }
{
    let mut trie = MutTrie::over(alloc, root);
    trie.change(fetch, alloc, list)?;
    let now = trie.save(alloc, at, block)?;
    Ok(now)
}
