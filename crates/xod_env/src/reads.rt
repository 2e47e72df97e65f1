//! A block that is built over a lease.
ghost use Rattle.std.specs.Prelude.{◌≡◌, ◌<◌, ◌^◌, ℕ, true, Err, IfOk, IfSome, IsSome, IsTrue};
ghost use Rattle.std.specs.FinMap.{entries, get};
ghost use Rattle.xod_base.specs.declared.causes.Place.{Place};
ghost use Rattle.xod_base.specs.declared.causes.ReadError.TheVariants.{Damaged};
ghost use Rattle.xod_base.specs.Views.{CountsFaults};
ghost use Rattle.xod_block.specs.Bodies.{records_of};
ghost use Rattle.xod_block.specs.Fetches.{Stays};
ghost use Rattle.xod_pages.specs.Lent.{lent_bodies};
ghost use Rattle.xod_commit.specs.Blocks.{Fit, all_begin_before, have_tree_numbers};
ghost use Rattle.xod_overlay.specs.Marks.{touched};
ghost use Rattle.xod_trie_mut.specs.Changes.{KeysFit};
ghost use Rattle.xod_env.specs.Building.{IsBlockOf};
ghost use Rattle.xod_snapshot.specs.Snapshots.{lent_trie};

use std::alloc::Global;
use xod_base::ReadError;
use xod_block::Address;
use xod_commit::{Built, build_block};
use xod_overlay::Overlay;
use xod_pages::{LeaseFetch, Pages};
use xod_root::RootList;
use xod_volume::Lease;

/// The block of a commit of touched keys, over the trees under some roots.
pub(crate) fn build_in<L: Lease>(
    alloc: Global,
    lease: &mut L,
    roots: &RootList,
    commit: u64,
    at: Address,
    changes: &Overlay,
) -> Result<Built, ReadError>
    requires numbered { have_tree_numbers (entries roots.now) ≡ true }
    requires below { all_begin_before at (entries roots.now) ≡ true }
    requires small { at.at < 2 ^ 63 }
    requires fit { Fit (touched changes.now) }
    requires keys_fit { IsTrue (L.tells lease.old) → (tree : ℕ)
        → IfSome (lent_trie (L.lent lease.old) (get roots.now tree)) KeysFit }
    ensures built { IfOk result (IsBlockOf (L.tells lease.old)
        (records_of (lent_bodies (L.lent lease.old))) roots.now commit at (touched changes.now)) }
    ensures never_damaged { IsTrue (L.tells lease.old)
        → ((tree : ℕ) → IsSome (lent_trie (L.lent lease.old) (get roots.now tree)))
        → (place : Place) → ¬ (result ≡ Err (Damaged place)) }
    ensures counts { CountsFaults (L.faults lease.old) (L.faults lease.new) result }
    ensures stays { Stays L.tells (λ lease. records_of (lent_bodies (L.lent lease))) L.refs L.faults
        lease.old lease.new }
{
    let mut pages = Pages::new(alloc)?;
    let mut fetch = LeaseFetch {
        lease,
        pages: &mut pages,
    };
    build_block(alloc, &mut fetch, roots, commit, at, changes)
}
