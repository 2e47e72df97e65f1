//! Transactions that read alone, and those that are begun anew.
use super::says::{given_says, show_says};
use std::alloc::Global;
use std::test::Fail;
use xod_base::{Memory, Mode, TreeView};
use xod_env::{Env, EnvError, Snapshot};
use xod_estxn::EntityTxn;
use xod_trial::{Datum, Given, TARGET, snapshot_of};
use xod_volume::{MemoryVolume, Volume};

/// One act of each form.
const EACH: &[Given] = &[
    Given::New("T"),
    Given::Delete((0, 0)),
    Given::Set((0, 0), "size", Datum::Int(1)),
    Given::Unset((0, 0), "size"),
    Given::Link((0, 0), "next", (0, 0)),
    Given::SetLink((0, 0), "next", (0, 0)),
    Given::Unlink((0, 0), "next", (0, 0)),
    Given::UnlinkAll((0, 0), "next"),
];

/// Whether a transaction has neither changes nor touched keys, or has both.
fn has_changes<T: TreeView>(txn: &EntityTxn<T>, wanted: bool) -> bool {
    txn.changes().is_empty() != wanted && txn.overlay().is_empty() != wanted
}

/// Whether each act is refused, and changes nothing.
fn refuses_each<T: TreeView>(alloc: Global, txn: &mut EntityTxn<T>) -> Result<bool, Memory> {
    for given in EACH {
        if !given_says(alloc, txn, *given, "1: refused read only\n")? {
            return Ok(false);
        }
    }
    Ok(has_changes(txn, false))
}

/// Whether an entity is made and shown, and there are changes then.
fn makes_one<T: TreeView>(alloc: Global, txn: &mut EntityTxn<T>) -> Result<bool, Memory> {
    Ok(
        has_changes(txn, false)
            && show_says(alloc, txn, (0, 0), "1: refused no entity 0-0\n")?
            && given_says(alloc, txn, Given::New("T"), "1: 0-0\n")?
            && show_says(alloc, txn, (0, 0), "1: 0-0 T\n")?
            && has_changes(txn, true),
    )
}

/// Whether a transaction refuses each act where it reads alone, and makes an entity where it writes.
fn said_once<T: TreeView>(
    alloc: Global,
    txn: &mut EntityTxn<T>,
    mode: Mode,
) -> Result<bool, Memory> {
    match mode {
        Mode::ReadOnly => refuses_each(alloc, txn),
        Mode::Ordinary | Mode::Exclusive => makes_one(alloc, txn),
    }
}

/// Renews a transaction on the newest commit.
fn renew<V: Volume>(
    env: &mut Env<V>,
    alloc: Global,
    txn: &mut EntityTxn<Snapshot<V::Held>>,
) -> Result<(), EnvError> {
    let (snapshot, adapter) = snapshot_of(env, alloc)?;
    let (old, _) = txn.renew(alloc, snapshot, adapter);
    env.unpin(old);
    Ok(())
}

/// What a transaction says before and after it was renewed, and whether it was.
type Said = (
    Result<bool, Memory>,
    Result<bool, Memory>,
    Result<(), EnvError>,
);

/// What a transaction of a mode says.
fn said_in<V: Volume>(env: &mut Env<V>, alloc: Global, mode: Mode) -> Result<Said, EnvError> {
    let (snapshot, adapter) = snapshot_of(env, alloc)?;
    let mut txn = EntityTxn::new(alloc, snapshot, adapter, mode);
    let first = said_once(alloc, &mut txn, mode);
    let renewed = renew(env, alloc, &mut txn);
    let second = said_once(alloc, &mut txn, mode);
    let (snapshot, _) = txn.into_parts();
    env.unpin(snapshot);
    Ok((first, second, renewed))
}

#[test]
fn a_mode_decides_and_a_renewed_transaction_has_no_changes(rt: HostRuntime) -> Result<(), Fail> {
    let alloc = rt.alloc();
    for mode in [Mode::ReadOnly, Mode::Ordinary, Mode::Exclusive] {
        let volume = MemoryVolume::new(alloc)?;
        let Ok(mut env) = Env::open(alloc, volume, TARGET) else {
            return Err(Fail::from("not opened"));
        };
        let said = said_in(&mut env, alloc, mode);
        let (_, closed) = env.close();
        closed?;
        let (first, second, renewed) = said?;
        renewed?;
        assert_eq!(rt; [first?, second?], [true, true], "mode {mode:?}");
    }
    Ok(())
}
