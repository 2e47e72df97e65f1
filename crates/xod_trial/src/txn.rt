//! Transactions over the newest commit of an environment.
ghost use Rattle.std.specs.Prelude.{◌≡◌, IfOk, IsTrue};
ghost use Rattle.xod_base.specs.Rows.{RowsValue};
ghost use Rattle.xod_base.specs.Views.{KeepsView};
ghost use Rattle.xod_env.specs.Envs.{env_trees};
ghost use Rattle.xod_estxn.specs.Txns.{MayBegin};
ghost use Rattle.xod_snapshot.specs.Snapshots.{snapshot_trees};
ghost use Rattle.xod_tables.specs.Tables.{AreTables};

use crate::given::{Given, act_of};
use std::alloc::Global;
use xod_base::{Mode, NameKind, NameList, ReadError, StmtError, TreeView};
use xod_cache::Adapter;
use xod_env::{Env, EnvError, FlushError, Flushed, Snapshot};
use xod_estxn::EntityTxn;
use xod_names::names;
use xod_readings::names_of_rows_are_read;
use xod_tables::rows_are_read_exactly;
use xod_volume::Volume;

/// The length at which tests roll log files.
pub const TARGET: u64 = 4096;

/// The names of the types of the rows that a view's trees are the tables of.
fn types_of<T: TreeView>(view: &mut T, alloc: Global) -> Result<NameList, ReadError>
    ensures of_rows { IsTrue (T.tells view.old) → (rows : RowsValue)
        → AreTables (T.trees view.old) rows → IfOk result (λ kinds. kinds ≡ rows.types) }
    ensures keeps { KeepsView T.tells T.trees T.commit T.refs T.faults view.old view.new }
{
    names_of_rows_are_read();
    names(view, alloc, NameKind::Kinds)
}

/// A snapshot of the newest commit, with the adapter of its rows: a transaction may begin with both.
pub fn snapshot_of<V: Volume>(
    env: &mut Env<V>,
    alloc: Global,
) -> Result<(Snapshot<V::Held>, Adapter), EnvError>
    ensures may_begin { IfOk result (λ begun. MayBegin (V.Held.tells begun.0.lease)
        (snapshot_trees (V.Held.lent begun.0.lease) begun.0.roots) begun.1.names) }
    ensures version { IfOk result (λ begun. begun.0.version ≡ env.new.commit) }
    ensures tells { IfOk result (λ begun.
        V.Held.tells begun.0.lease ≡ V.tells env.new.volume) }
    ensures trees { IsTrue (V.tells env.new.volume) → IfOk result (λ begun.
        snapshot_trees (V.Held.lent begun.0.lease) begun.0.roots
        ≡ env_trees env.new.log.file (V.files env.new.volume) env.new.roots) }
{
    rows_are_read_exactly();
    let mut snapshot = env.pin(alloc)?;
    match types_of(&mut snapshot, alloc) {
        Ok(kinds) => Ok((snapshot, Adapter::over(kinds))),
        Err(error) => {
            env.unpin(snapshot);
            Err(EnvError::from(error))
        }
    }
}

/// Why no commit is made where an act was refused; `None` where the rows refuse it.
fn failure(error: StmtError) -> Option<FlushError> {
    match error {
        StmtError::Device => Some(FlushError::Device),
        StmtError::Damaged(place) => Some(FlushError::Damaged(place)),
        StmtError::Memory => Some(FlushError::Memory),
        _ => None,
    }
}

/// Makes acts in a transaction, and passes over those that the rows refuse.
pub fn make_acts<T: TreeView>(
    txn: &mut EntityTxn<T>,
    alloc: Global,
    acts: &[Given],
) -> Result<(), FlushError>
    ensures { KeepsView T.tells T.trees T.commit T.refs T.faults txn.old.view txn.new.view }
{
    for given in acts {
        let Ok(act) = act_of(alloc, *given) else {
            return Err(FlushError::Memory);
        };
        if let Err(error) = txn.act(alloc, &act)
            && let Some(cause) = failure(error)
        {
            return Err(cause);
        }
    }
    Ok(())
}

/// Commits acts by a transaction of its own over the newest commit. Acts that the rows refuse are passed over; where
/// memory or the device refuses one, there is no commit.
pub fn commit<V: Volume>(
    env: &mut Env<V>,
    alloc: Global,
    acts: &[Given],
) -> Result<Flushed, FlushError> {
    rows_are_read_exactly();
    let (snapshot, adapter) = snapshot_of(env, alloc)?;
    let base = snapshot.version;
    let mut txn = EntityTxn::new(alloc, snapshot, adapter, Mode::Ordinary);
    let flushed = match make_acts(&mut txn, alloc, acts) {
        Ok(()) => env.flush(alloc, base, txn.overlay()),
        Err(cause) => Err(cause),
    };
    let (snapshot, _) = txn.into_parts();
    env.unpin(snapshot);
    flushed
}
