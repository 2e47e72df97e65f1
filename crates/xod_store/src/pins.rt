//! A snapshot of the newest commit, with its adapter, and how a transaction's is taken back.
ghost use Rattle.std.specs.Prelude.{◌≡◌, ◌+◌, IfOk, IsTrue};
ghost use Rattle.xod_env.specs.EnvCalls.{KeepsFiles, KeepsNewest};
ghost use Rattle.xod_env.specs.Envs.{IsSteady, env_trees};
ghost use Rattle.xod_journal.specs.Spaces.{IsCounted, faults_in};
ghost use Rattle.xod_snapshot.specs.Snapshots.{snapshot_trees};
ghost use Rattle.xod_store.specs.Pins.{EnvAnswers};

use crate::state::StoreTxn;
use std::alloc::Global;
use xod_cache::Adapter;
use xod_env::{Env, EnvError, Snapshot};
use xod_journal::Local;
use xod_volume::Volume;

/// A snapshot of the newest commit, and a copy of its adapter. A refusal lends nothing.
pub(crate) fn pin_newest<V: Volume>(
    alloc: Global,
    env: &mut Env<V>,
    adapter: &Adapter,
) -> Result<(Snapshot<V::Held>, Adapter), EnvError>
    ensures version { IfOk result (λ pinned. pinned.0.version ≡ env.old.commit) }
    ensures trees { IsTrue (V.tells env.old.volume) → IfOk result (λ pinned.
        snapshot_trees (V.Held.lent pinned.0.lease) pinned.0.roots
        ≡ env_trees env.old.log.file (V.files env.old.volume) env.old.roots) }
    ensures tells_alike { IfOk result (λ pinned.
        V.Held.tells pinned.0.lease ≡ V.tells env.old.volume) }
    ensures faultless { IfOk result (λ pinned. V.Held.faults pinned.0.lease ≡ 0) }
    ensures names { IfOk result (λ pinned. pinned.1.names ≡ adapter.now.names) }
    ensures answers { EnvAnswers env.old.is_broken (V.faults env.old.volume)
        (V.faults env.new.volume) result }
    ensures broken_as_before { env.new.is_broken ≡ env.old.is_broken }
    ensures log { env.new.log ≡ env.old.log }
    ensures newest { KeepsNewest env.old.roots env.new.roots
        env.old.commit env.new.commit env.old.file_count env.new.file_count }
    ensures files { KeepsFiles V.tells V.files V.moment V.may_leave V.refs V.faults
        env.old.volume env.new.volume }
    ensures steady { IsTrue (V.tells env.old.volume)
        → IsSteady env.old.log (V.files env.old.volume)
        (V.may_leave env.old.volume (V.moment env.old.volume))
        → IsSteady env.new.log (V.files env.new.volume)
        (V.may_leave env.new.volume (V.moment env.new.volume)) }
{
    let snapshot = env.pin(alloc)?;
    match adapter.copy(alloc) {
        Ok(adapter) => Ok((snapshot, adapter)),
        Err(error) => {
            env.unpin(snapshot);
            Err(EnvError::from(error))
        }
    }
}

/// Takes the snapshot of a transaction back, where there is one, and counts its faults.
pub(crate) fn take_back<V: Volume>(env: &mut Env<V>, txn: Option<StoreTxn<V>>)
    ensures counted { IsCounted (V.faults env.old.volume
        + faults_in ⟦<StoreTxn<V> as Local>⟧.faults txn) (V.faults env.new.volume) }
    ensures broken_as_before { env.new.is_broken ≡ env.old.is_broken }
    ensures log { env.new.log ≡ env.old.log }
    ensures newest { KeepsNewest env.old.roots env.new.roots
        env.old.commit env.new.commit env.old.file_count env.new.file_count }
    ensures files { KeepsFiles V.tells V.files V.moment V.may_leave V.refs V.faults
        env.old.volume env.new.volume }
    ensures steady { IsTrue (V.tells env.old.volume)
        → IsSteady env.old.log (V.files env.old.volume)
        (V.may_leave env.old.volume (V.moment env.old.volume))
        → IsSteady env.new.log (V.files env.new.volume)
        (V.may_leave env.new.volume (V.moment env.new.volume)) }
{
    match txn {
        Some(txn) => {
            let (snapshot, _) = txn.into_parts();
            env.unpin(snapshot);
        }
        None => {}
    }
}
