//! Lists of names that are full, and a type whose local numbers are spent.
ghost use Rattle.std.specs.Prelude.{◌<◌, IfOk, IsTrue};
ghost use Rattle.xod_base.specs.Rows.{has_name_length};
ghost use Rattle.xod_journal.specs.Changes.{has_names};

use super::says::{act_says, given_says};
use std::alloc::Global;
use std::test::Fail;
use xod_base::{Act, MOST_NAMES, Memory, Mode, NameKind, Text, TreeView, Value};
use xod_env::{Env, EnvError};
use xod_estxn::EntityTxn;
use xod_trial::{Given, ONE_ENTITY, SEALED, TARGET, id_of, name_of, snapshot_of, volume_with};
use xod_volume::Volume;

/// The digit of a number that counts so many.
fn digit(number: usize, count: usize) -> u8
    requires { 0 < count }
{
    b'0' + (number / count % 10) as u8
}

/// The name with a number: `n` and its last four digits.
fn numbered(alloc: Global, number: usize) -> Result<Text, Memory>
    ensures { IfOk result (λ name. IsTrue (has_name_length name)) }
{
    let name = [
        b'n',
        digit(number, 1000),
        digit(number, 100),
        digit(number, 10),
        digit(number, 1),
    ];
    name_of(alloc, &name)
}

/// An act that uses the name with a number, of a list.
fn act_with(alloc: Global, list: NameKind, number: usize) -> Result<Act, Memory>
    ensures { IfOk result (λ act. IsTrue (has_names act)) }
{
    let name = numbered(alloc, number)?;
    let id = id_of((0, 0));
    match list {
        NameKind::Kinds => Ok(Act::New { kind: name }),
        NameKind::Props => Ok(Act::Set {
            id,
            prop: name,
            value: Value::Flag(true),
        }),
        NameKind::Links => Ok(Act::Link {
            source: id,
            link: name,
            target: id,
        }),
    }
}

/// How many names a list takes, one behind the other.
fn names_taken<T: TreeView>(
    alloc: Global,
    txn: &mut EntityTxn<T>,
    list: NameKind,
) -> Result<usize, Memory> {
    for number in 0..=MOST_NAMES {
        let act = act_with(alloc, list, number)?;
        if txn.act(alloc, &act).is_err() {
            return Ok(number);
        }
    }
    Ok(MOST_NAMES + 1)
}

/// How many names a list takes; and whether it is refused so then, and whether the name with number 7 is still taken so.
fn fills<T: TreeView>(
    alloc: Global,
    txn: &mut EntityTxn<T>,
    list: NameKind,
    refused: &str,
    again: &str,
) -> Result<(usize, bool, bool), Memory> {
    let taken = names_taken(alloc, txn, list)?;
    let another = act_with(alloc, list, MOST_NAMES + 1)?;
    let known = act_with(alloc, list, 7)?;
    let is_refused = act_says(alloc, txn, &another, refused)?;
    let is_taken = act_says(alloc, txn, &known, again)?;
    Ok((taken, is_refused, is_taken))
}

/// The same of each list, over a store with one type and no other names.
fn fills_each<T: TreeView>(
    alloc: Global,
    txn: &mut EntityTxn<T>,
) -> Result<[(usize, bool, bool); 3], Memory> {
    let kinds = "1: refused too many types 4096\n";
    let props = "1: refused too many properties 4096\n";
    let links = "1: refused too many links 4096\n";
    Ok([
        fills(alloc, txn, NameKind::Kinds, kinds, "1: 8-1\n")?,
        fills(alloc, txn, NameKind::Props, props, "1: same\n")?,
        fills(alloc, txn, NameKind::Links, links, "1: same\n")?,
    ])
}

/// Whether the last number of a type is given, and then none; and whether another type is not touched by that.
fn spends<T: TreeView>(alloc: Global, txn: &mut EntityTxn<T>) -> Result<[bool; 4], Memory> {
    Ok([
        given_says(alloc, txn, Given::New("T"), "1: 0-4294967295\n")?,
        given_says(alloc, txn, Given::New("T"), "1: refused ids spent 0\n")?,
        given_says(alloc, txn, Given::New("T"), "1: refused ids spent 0\n")?,
        given_says(alloc, txn, Given::New("U"), "1: 1-0\n")?,
    ])
}

/// What is to be tried.
#[derive(Clone, Copy)]
enum Trial {
    Fill,
    Spend,
}

/// What was tried came to.
#[derive(Clone, Copy, Debug, PartialEq, Eq)]
enum Came {
    Filled([(usize, bool, bool); 3]),
    Spent([bool; 4]),
}

/// Tries a transaction.
fn tried<T: TreeView>(alloc: Global, txn: &mut EntityTxn<T>, trial: Trial) -> Result<Came, Memory> {
    match trial {
        Trial::Fill => Ok(Came::Filled(fills_each(alloc, txn)?)),
        Trial::Spend => Ok(Came::Spent(spends(alloc, txn)?)),
    }
}

/// Tries a transaction over the newest commit.
fn tried_over<V: Volume>(
    env: &mut Env<V>,
    alloc: Global,
    trial: Trial,
) -> Result<Result<Came, Memory>, EnvError> {
    let (snapshot, adapter) = snapshot_of(env, alloc)?;
    let mut txn = EntityTxn::new(alloc, snapshot, adapter, Mode::Ordinary);
    let came = tried(alloc, &mut txn, trial);
    let (snapshot, _) = txn.into_parts();
    env.unpin(snapshot);
    Ok(came)
}

/// Tries a transaction over the store with this body.
fn tried_on(alloc: Global, body: &[u8], trial: Trial) -> Result<Came, Fail> {
    let volume = volume_with(alloc, Some(body), Some(&SEALED))?;
    let Ok(mut env) = Env::open(alloc, volume, TARGET) else {
        return Err(Fail::from("not opened"));
    };
    let came = tried_over(&mut env, alloc, trial);
    let (_, closed) = env.close();
    closed?;
    Ok(came??)
}

#[test]
fn each_list_takes_4096_names(rt: HostRuntime) -> Result<(), Fail> {
    let came = tried_on(rt.alloc(), &ONE_ENTITY, Trial::Fill)?;
    let wanted = [(4095, true, true), (4096, true, true), (4096, true, true)];
    assert_eq!(rt; came, Came::Filled(wanted));
    Ok(())
}

#[test]
fn the_last_local_number_is_drawn_once(rt: HostRuntime) -> Result<(), Fail> {
    let mut body = ONE_ENTITY;
    // The next number is 4294967295.
    body[34..39].copy_from_slice(&[0, 255, 255, 255, 255]);
    let came = tried_on(rt.alloc(), &body, Trial::Spend)?;
    assert_eq!(rt; came, Came::Spent([true; 4]));
    Ok(())
}
