//! A transaction over the worked store of one entity.
use super::says::{all_says, given_says, show_says};
use std::alloc::Global;
use std::test::Fail;
use xod_base::{Memory, Mode, TreeView};
use xod_env::{Env, EnvError};
use xod_estxn::EntityTxn;
use xod_trial::{Given, ONE_ENTITY, SEALED, TARGET, snapshot_of, volume_with};
use xod_volume::Volume;

/// Whether the entity is shown and found, alone, and what is made next is the second.
fn says_each<T: TreeView>(alloc: Global, txn: &mut EntityTxn<T>) -> Result<[bool; 4], Memory> {
    Ok([
        show_says(alloc, txn, (0, 0), "1: 0-0 T\n")?,
        all_says(alloc, txn, "T", "1: ids 0-0\n")?,
        given_says(alloc, txn, Given::New("T"), "1: 0-1\n")?,
        all_says(alloc, txn, "T", "1: ids 0-0 0-1\n")?,
    ])
}

/// The same, of a transaction over the newest commit.
fn says_over<V: Volume>(
    env: &mut Env<V>,
    alloc: Global,
) -> Result<Result<[bool; 4], Memory>, EnvError> {
    let (snapshot, adapter) = snapshot_of(env, alloc)?;
    let mut txn = EntityTxn::new(alloc, snapshot, adapter, Mode::Ordinary);
    let said = says_each(alloc, &mut txn);
    let (snapshot, _) = txn.into_parts();
    env.unpin(snapshot);
    Ok(said)
}

#[test]
fn the_worked_store_is_read_and_goes_on(rt: HostRuntime) -> Result<(), Fail> {
    let alloc = rt.alloc();
    let volume = volume_with(alloc, Some(&ONE_ENTITY), Some(&SEALED))?;
    let Ok(mut env) = Env::open(alloc, volume, TARGET) else {
        return Err(Fail::from("not opened"));
    };
    let said = says_over(&mut env, alloc);
    let (_, closed) = env.close();
    closed?;
    assert_eq!(rt; said??, [true; 4]);
    Ok(())
}
