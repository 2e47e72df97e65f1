//! A law of snapshots.
//!
//! It is a function that does nothing and ensures the law, so that a reader finds it among the contracts.
ghost use Rattle.std.specs.Prelude.{◌≡◌};

use crate::snapshot::Snapshot;
use xod_base::TreeView;
use xod_volume::Lease;

/// What a snapshot has is that of its lease and its roots. With other pages it is the same.
pub fn pages_change_no_tree<L: Lease>(one: &Snapshot<L>, other: &Snapshot<L>)
    ensures { L.lent one.now.lease ≡ L.lent other.now.lease → one.now.roots ≡ other.now.roots
        → ⟦<Snapshot<L> as TreeView>⟧.trees one.now ≡ ⟦<Snapshot<L> as TreeView>⟧.trees other.now }
{}
