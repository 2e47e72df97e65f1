//! Reads that leave it known which files a lease has.
//!
//! A `Fetch` has no word for the files that it reads, so of a lease that was lent to one only the records are known
//! again. Here a lease is lent as a `Kept`, whose type says which files it has.
ghost use Rattle.std.specs.Prelude.{◌≡◌, ◌∷◌, [], ℕ, List};
ghost use Rattle.std.specs.FinMap.{entries, get};
ghost use Rattle.xod_base.specs.Views.{Answers, CountsFaults, least_pair};
ghost use Rattle.xod_pages.specs.Lent.{KeepsLease};
ghost use Rattle.xod_trie.specs.Least.{passes};
ghost use Rattle.xod_volume.specs.Files.{Files, no_files};
ghost use Rattle.xod_snapshot.specs.Snapshots.{lent_trie};

use crate::reads::{find_in, walk_in};
use std::alloc::Global;
use std::marker::{Brand, PhantomData};
use xod_base::{Bytes, Failed, Pair, ReadError};
use xod_block::Address;
use xod_pages::Pages;
use xod_volume::Lease;

/// Which files a lease has. Each call picks those of its own lease.
pub trait Holding {
    /// The numbers that were asked for.
    ghost list: { List ℕ };

    /// The files lent, with their bytes.
    ghost lent: { Files };
}

impl Holding for Brand {
    ghost list = { [] };

    ghost lent = { no_files };
}

/// A lease that has these files, whatever was done with it.
#[derive(Drop)]
pub struct Kept<'a, L: Lease, H: Holding> {
    pub lease: &'a mut L,
    pub files: PhantomData<H>,
    ghost list_is: { L.list lease.now ≡ H.list },
    ghost lent_is: { entries (L.lent lease.now) ≡ entries H.lent },
}

impl<'a, L: Lease, H: Holding> Lease for Kept<'a, L, H> {
    ghost tells = { λ kept. L.tells kept.lease.now };

    ghost list = { λ kept. L.list kept.lease.now };

    ghost lent = { λ kept. L.lent kept.lease.now };

    ghost reads = { λ kept. L.reads kept.lease.now };

    ghost faults = { λ kept. L.faults kept.lease.now };

    ghost refs = { λ kept. kept.lease.ghost_name ∷ L.refs kept.lease.now };

    fn read(&mut self, file: u64, at: u64, out: &mut [u8]) -> Result<usize, Failed> {
        self.lease.read(file, at, out)
    }
}

/// `find_in` over a lease that has these files. It has them afterwards too.
pub(crate) fn find_kept<L: Lease, H: Holding>(
    alloc: Global,
    lease: &mut L,
    pages: &mut Pages,
    root: Option<Address>,
    key: &[u8],
) -> Result<Option<Bytes>, ReadError>
    requires list_is { L.list lease.old ≡ H.list }
    requires lent_is { L.lent lease.old ≡ H.lent }
    ensures answers { Answers (L.tells lease.old) (lent_trie (L.lent lease.old) root)
        (λ map. get map key.now) result }
    ensures counts { CountsFaults (L.faults lease.old) (L.faults lease.new) result }
    ensures keeps { KeepsLease L.tells L.list L.lent L.refs L.faults lease.old lease.new }
{
    let mut kept = Kept::<'_, L, H> {
        lease,
        files: PhantomData,
    };
    find_in(alloc, &mut kept, pages, root, key)
}

/// `walk_in` over a lease that has these files. It has them afterwards too.
pub(crate) fn walk_kept<L: Lease, H: Holding>(
    alloc: Global,
    lease: &mut L,
    pages: &mut Pages,
    root: Option<Address>,
    key: &[u8],
    strict: bool,
) -> Result<Option<Pair>, ReadError>
    requires list_is { L.list lease.old ≡ H.list }
    requires lent_is { L.lent lease.old ≡ H.lent }
    ensures answers { Answers (L.tells lease.old) (lent_trie (L.lent lease.old) root)
        (least_pair (passes strict key.now)) result }
    ensures counts { CountsFaults (L.faults lease.old) (L.faults lease.new) result }
    ensures keeps { KeepsLease L.tells L.list L.lent L.refs L.faults lease.old lease.new }
{
    let mut kept = Kept::<'_, L, H> {
        lease,
        files: PhantomData,
    };
    walk_in(alloc, &mut kept, pages, root, key, strict)
}
