//! Reads of tries over a lease.
//!
//! Each is one look-up or walk over a `LeaseFetch`, and answers as a view does.
ghost use Rattle.std.specs.FinMap.{get};
ghost use Rattle.xod_base.specs.Views.{Answers, CountsFaults, least_pair};
ghost use Rattle.xod_block.specs.Bodies.{records_of};
ghost use Rattle.xod_block.specs.Fetches.{Stays};
ghost use Rattle.xod_pages.specs.Lent.{lent_bodies};
ghost use Rattle.xod_trie.specs.Least.{passes};
ghost use Rattle.xod_snapshot.specs.Snapshots.{lent_trie};

use std::alloc::Global;
use xod_base::{Bytes, Pair, ReadError};
use xod_block::Address;
use xod_cursor::{next, seek};
use xod_pages::{LeaseFetch, Pages};
use xod_trie::find;
use xod_volume::Lease;

/// The value of a key in the trie under a root.
pub(crate) fn find_in<L: Lease>(
    alloc: Global,
    lease: &mut L,
    pages: &mut Pages,
    root: Option<Address>,
    key: &[u8],
) -> Result<Option<Bytes>, ReadError>
    ensures answers { Answers (L.tells lease.old) (lent_trie (L.lent lease.old) root)
        (λ map. get map key.now) result }
    ensures counts { CountsFaults (L.faults lease.old) (L.faults lease.new) result }
    ensures stays { Stays L.tells (λ lease. records_of (lent_bodies (L.lent lease))) L.refs L.faults
        lease.old lease.new }
{
    let mut fetch = LeaseFetch { lease, pages };
    find(alloc, &mut fetch, root, key)
}

/// The pair of the trie under a root with the least key that is not below a key, or that is above it if `strict`.
pub(crate) fn walk_in<L: Lease>(
    alloc: Global,
    lease: &mut L,
    pages: &mut Pages,
    root: Option<Address>,
    key: &[u8],
    strict: bool,
) -> Result<Option<Pair>, ReadError>
    ensures answers { Answers (L.tells lease.old) (lent_trie (L.lent lease.old) root)
        (least_pair (passes strict key.now)) result }
    ensures counts { CountsFaults (L.faults lease.old) (L.faults lease.new) result }
    ensures stays { Stays L.tells (λ lease. records_of (lent_bodies (L.lent lease))) L.refs L.faults
        lease.old lease.new }
{
    let mut fetch = LeaseFetch { lease, pages };
    if strict {
        next(&mut fetch, alloc, root, key)
    } else {
        seek(&mut fetch, alloc, root, key)
    }
}
