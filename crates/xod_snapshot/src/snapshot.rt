//! What a reader has of a commit.
//!
//! The environment makes a snapshot of its newest roots and of a lease of the files that they reach. It is read while
//! the store goes on: nothing that is written later shows in it.
ghost use Rattle.std.specs.Prelude.{◌≡◌};
ghost use Rattle.std.specs.FinMap.{get as value_at};
ghost use Rattle.xod_base.specs.Views.{Answers, CountsFaults, above, least_pair, not_below};
ghost use Rattle.xod_pages.specs.Lent.{KeepsLease};
ghost use Rattle.xod_snapshot.specs.Snapshots.{snapshot_trees};

use crate::kept::{find_kept, walk_kept};
use std::alloc::Global;
use std::marker::Brand;
use xod_base::{Bytes, Pair, ReadError, TreeView};
use xod_pages::Pages;
use xod_root::RootList;
use xod_volume::Lease;

/// The trees of a commit, with the files lent to read them.
///
/// It is not dropped: whoever is done with it takes it apart and gives the lease back to the volume that lent it.
pub struct Snapshot<L: Lease> {
    /// The files, as they were when they were lent.
    pub lease: L,
    /// Where each tree begins.
    pub roots: RootList,
    /// The number of the commit.
    pub version: u64,
    /// What is kept from one read to the next. It shows in no answer.
    pub pages: Pages,
}

impl<L: Lease> TreeView for Snapshot<L> {
    ghost tells = { λ snapshot. L.tells snapshot.lease };

    ghost trees = { λ snapshot. snapshot_trees (L.lent snapshot.lease) snapshot.roots };

    ghost commit = { λ snapshot. snapshot.version };

    ghost faults = { λ snapshot. L.faults snapshot.lease };

    ghost refs = { λ snapshot. L.refs snapshot.lease };

    fn get(&mut self, alloc: Global, tree: u8, key: &[u8]) -> Result<Option<Bytes>, ReadError>
        ensures answers { Answers (L.tells self.old.lease)
            (snapshot_trees (L.lent self.old.lease) self.old.roots tree)
            (λ map. value_at map key.now) result }
        ensures counts { CountsFaults (L.faults self.old.lease) (L.faults self.new.lease) result }
        ensures lease_stays { KeepsLease L.tells L.list L.lent L.refs L.faults
            self.old.lease self.new.lease }
        ensures roots_stay { self.new.roots ≡ self.old.roots }
        ensures version_stays { self.new.version ≡ self.old.version }
    {
        let root = self.roots.get(tree);
        find_kept::<L, Brand>(alloc, &mut self.lease, &mut self.pages, root, key)
    }

    fn seek(&mut self, alloc: Global, tree: u8, key: &[u8]) -> Result<Option<Pair>, ReadError>
        ensures answers { Answers (L.tells self.old.lease)
            (snapshot_trees (L.lent self.old.lease) self.old.roots tree)
            (least_pair (not_below key.now)) result }
        ensures counts { CountsFaults (L.faults self.old.lease) (L.faults self.new.lease) result }
        ensures lease_stays { KeepsLease L.tells L.list L.lent L.refs L.faults
            self.old.lease self.new.lease }
        ensures roots_stay { self.new.roots ≡ self.old.roots }
        ensures version_stays { self.new.version ≡ self.old.version }
    {
        let root = self.roots.get(tree);
        walk_kept::<L, Brand>(alloc, &mut self.lease, &mut self.pages, root, key, false)
    }

    fn next(&mut self, alloc: Global, tree: u8, key: &[u8]) -> Result<Option<Pair>, ReadError>
        ensures answers { Answers (L.tells self.old.lease)
            (snapshot_trees (L.lent self.old.lease) self.old.roots tree)
            (least_pair (above key.now)) result }
        ensures counts { CountsFaults (L.faults self.old.lease) (L.faults self.new.lease) result }
        ensures lease_stays { KeepsLease L.tells L.list L.lent L.refs L.faults
            self.old.lease self.new.lease }
        ensures roots_stay { self.new.roots ≡ self.old.roots }
        ensures version_stays { self.new.version ≡ self.old.version }
    {
        let root = self.roots.get(tree);
        walk_kept::<L, Brand>(alloc, &mut self.lease, &mut self.pages, root, key, true)
    }
}
