//! A script that was read, played over the store in a volume.
//!
//! The sessions are made first, so that a run without memory for them touches no volume. What becomes of the store stands
//! in `specs/Runs.antt`.
ghost use Rattle.std.specs.Prelude.{◌≡◌, ◌≤◌, [], IsTrue, Some};
ghost use Rattle.xod_lang.specs.WellFormed.{is_well_formed};
ghost use Rattle.xod_lang.specs.declared.script.Script.{Script as AnyScript};
ghost use Rattle.xod_play.specs.Rounds.{AllSit, scripts_in};
ghost use Rattle.xod_recover.specs.Stores.{stored_in};
ghost use Rattle.xod_env.specs.Envs.{newest_stored};
ghost use Rattle.xod_shell.specs.Holdings.{HasBegun};
ghost use Rattle.xod_shell.specs.Runs.{EndsAs, IsPlayed, IsPrintedAs, IsRefusedAs, Ran, WasSettled, closing_of, disk_of};
ghost use Rattle.xod_shell.specs.Statuses.{status_after};

use crate::ending::Ending;
use crate::kept::{Beginning, Kept};
use crate::status::status_after;
use std::alloc::Global;
use std::marker::{Brand, PhantomData};
use std::snapshot::Snapshot;
use std::vec::Vec;
use xod_base::{Cause, Memory};
use xod_env::{Env, EnvError};
use xod_journal::{JournalEntry, Local, Space};
use xod_lang::{OrderItem, Script};
use xod_play::{Gathered, Player, finish_all, gather, let_all_go, replay, seat, wants_memory};
use xod_recover::OpenError;
use xod_store::{StoreState, StoreTxn, cause_of};
use xod_volume::Volume;

/// For which cause a store was not closed.
fn closing_of(closed: Result<(), EnvError>) -> Option<Cause>
    ensures { result ≡ closing_of closed }
{
    match closed {
        Ok(()) => None,
        Err(error) => Some(cause_of(error)),
    }
}

/// The ending where a store was not opened.
fn refused(alloc: Global, error: OpenError) -> Ending
    ensures { IsRefusedAs error result }
{
    match error {
        OpenError::Device => Ending::DeviceFailed,
        OpenError::Damaged(place) => match Ending::damaged(alloc, place) {
            Ok(ending) => ending,
            Err(Memory) => Ending::NoMemory,
        },
        OpenError::Memory => Ending::NoMemory,
    }
}

/// The ending of a run over a store that was closed, or was not for a cause: the transcript, or the item that could not be
/// taken. A run that met want of memory and then can't take an item ends for want of memory.
fn ending_of(
    alloc: Global,
    untaken: Option<u64>,
    gathered: Result<Gathered, Memory>,
    counts: (u64, u64),
    journal: &[JournalEntry],
    closing: Option<Cause>,
) -> Ending
    ensures { EndsAs untaken gathered counts.0 counts.1 journal.now closing result }
{
    let Some(item) = untaken else {
        let status = status_after(journal, closing);
        return printed(alloc, gathered, counts, journal, status);
    };
    if wants_memory(journal) {
        return Ending::NoMemory;
    }
    match Ending::untaken(alloc, item) {
        Ok(ending) => ending,
        Err(Memory) => Ending::NoMemory,
    }
}

/// The ending that prints the transcript, with the newest commit and the number of log files.
fn printed(
    alloc: Global,
    gathered: Result<Gathered, Memory>,
    counts: (u64, u64),
    journal: &[JournalEntry],
    status: u8,
) -> Ending
    ensures { IsPrintedAs gathered counts.0 counts.1 journal.now status result }
{
    let Ok(gathered) = gathered else {
        return Ending::NoMemory;
    };
    match gathered.finish(alloc, counts.0, counts.1, journal) {
        Ok(text) => Ending::Printed { status, text },
        Err(Memory) => Ending::NoMemory,
    }
}

/// Plays an order over an open store, and closes the store. Of the volume before the run contracts alone speak.
fn play_out<V: Volume, B: Beginning>(
    alloc: Global,
    before: Snapshot<V>,
    store: StoreState<V>,
    mut players: Vec<Player<StoreTxn<V>>>,
    order: &[OrderItem],
) -> (Ending, V)
    requires journal { store.journal.items ≡ [] }
    requires tells { V.tells store.start.origin.value.volume ≡ V.tells before.value }
    requires faults { V.faults store.start.origin.value.volume ≡ V.faults before.value }
    requires stored { IsTrue (V.tells before.value) → stored_in (V.files before.value)
        ≡ Some (newest_stored store.start.origin.value.log.file
        (V.files store.start.origin.value.volume) store.start.origin.value.roots
        store.start.origin.value.commit) }
    requires calm { WasSettled (disk_of V.tells V.files V.faults V.moment V.may_leave
        before.value before.value) → B.calm }
    requires since { B.since ≡ V.moment before.value }
    requires begun { HasBegun V.tells V.files V.moment V.may_leave
        store.start.origin.value.volume store.start.origin.value.log
        store.start.origin.value.roots store.start.origin.value.commit B.calm B.since }
    requires sit { AllSit ⟦<StoreTxn<V> as Local>⟧.tells ⟦<StoreTxn<V> as Local>⟧.txn
        ⟦<StoreTxn<V> as Local>⟧.faults 1 (⟦<StoreState<V> as Space>⟧.view store) players.items }
    ensures ran { (script : AnyScript) → script.sessions ≡ scripts_in players.items
        → script.order ≡ order.now → Ran (disk_of V.tells V.files V.faults V.moment V.may_leave
        before.value result.1) script result.0 }
{
    let run = PhantomData;
    let mut kept = Kept::<V, B> { store, run };
    let untaken = replay(alloc, &mut players, &mut kept, order);
    let gathered = gather(alloc, &players);
    finish_all(players, &mut kept);
    let Kept { store, run: _ } = kept;
    let counts = (store.env.version(), store.env.files());
    let (volume, journal, closed) = store.close();
    let closing = closing_of(closed);
    let ending = ending_of(
        alloc,
        untaken,
        gathered,
        counts,
        journal.as_slice(),
        closing,
    );
    (ending, volume)
}

/// Opens the store in a volume, plays a script over it, and closes it. The volume is handed back.
pub(crate) fn run<V: Volume>(alloc: Global, script: Script, volume: V, target: u64) -> (Ending, V)
    requires formed { IsTrue (is_well_formed script) }
    requires some { 4096 ≤ target }
    requires low { target ≤ 8388608 }
    ensures { IsPlayed (disk_of V.tells V.files V.faults V.moment V.may_leave volume result.1)
        script result.0 }
{
    let Script {
        sessions,
        order_line: _,
        order,
    } = script;
    let count = sessions.len() as u32;
    let Ok(players) = seat(alloc, sessions) else {
        return (Ending::NoMemory, volume);
    };
    let before = Snapshot::of(&volume);
    let env = match Env::open(alloc, volume, target) {
        Ok(env) => env,
        Err((volume, error)) => {
            let_all_go(players);
            return (refused(alloc, error), volume);
        }
    };
    match StoreState::new(alloc, env, count) {
        Ok(store) => play_out::<V, Brand>(alloc, before, store, players, order.as_slice()),
        Err(env) => {
            let_all_go(players);
            let (volume, _) = env.close();
            (Ending::NoMemory, volume)
        }
    }
}
