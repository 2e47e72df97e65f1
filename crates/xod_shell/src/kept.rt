//! A store of which it is known, whatever was played over it, what a crash could leave before it was opened.
//!
//! Players play over any space, and of one that they played over only that is known which every space keeps. Here they play
//! over a store as a `Kept`, whose type says what each image held from the start of the run up to the opening.
ghost use Rattle.std.specs.Prelude.{◌≡◌, ℕ, is_some};
ghost use Rattle.std.proofs.Props.{props};
ghost use Rattle.xod_journal.specs.declared.journal.Step.TheVariants as step;
ghost use Rattle.xod_journal.specs.Seats.{entered};
ghost use Rattle.xod_journal.specs.Spaces.{CanStop, KeepsSpace, faults_in};
ghost use Rattle.xod_store.specs.Facts.{same_rows};
ghost use Rattle.xod_store.specs.StoreLaw.{store_lawful};
ghost use Rattle.xod_shell.specs.Holdings.{HasBegun, same_tree};

use std::alloc::Global;
use std::marker::{Brand, PhantomData};
use xod_base::{Cause, FlushAnswer, Mode};
use xod_journal::{BeginFault, Local, Origin, Space};
use xod_store::{StoreState, StoreTxn, cause_of, fault_of};
use xod_volume::Volume;

/// How a run began. Each call picks that of its own run.
pub(crate) trait Beginning {
    /// Whether the volume was settled.
    ghost calm: { Type 0 };

    /// The moment.
    ghost since: { ℕ };
}

impl Beginning for Brand {
    ghost calm = { ⊥ };

    ghost since = { 0 };
}

/// A store, and what each image held from the start of the run up to the opening.
pub(crate) struct Kept<V: Volume, B: Beginning> {
    pub(crate) store: StoreState<V>,
    pub(crate) run: PhantomData<B>,
    ghost begun: { HasBegun V.tells V.files V.moment V.may_leave store.start.origin.value.volume
        store.start.origin.value.log store.start.origin.value.roots
        store.start.origin.value.commit B.calm B.since } by { Prim.hlevel (props, same_rows, same_tree) },
}

impl<V: Volume, B: Beginning> Space for Kept<V, B> {
    type Open = StoreTxn<V>;

    ghost view = { λ kept. ⟦<StoreState<V> as Space>⟧.view kept.store };

    ghost lawful = { λ kept. store_lawful _ _ _ _ _ _ _ kept.store.env.log kept.store.env.commit _ _ _ _ _ kept.store.accounted kept.store.booked kept.store.told };

    fn begin(
        &mut self,
        alloc: Global,
        actor: u32,
        mode: Mode,
    ) -> Result<(u64, StoreTxn<V>), BeginFault> {
        match self.store.step_begin(alloc, actor, mode) {
            Ok(txn) => {
                let base = txn.view().version;
                Ok((base, txn))
            }
            Err(error) => Err(fault_of(error)),
        }
    }

    fn flush(
        &mut self,
        alloc: Global,
        actor: u32,
        txn: &mut StoreTxn<V>,
    ) -> Result<FlushAnswer, Cause> {
        match self.store.step_flush(alloc, actor, txn) {
            Ok(answer) => Ok(answer),
            Err(error) => Err(cause_of(error)),
        }
    }

    fn revert(&mut self, alloc: Global, actor: u32, txn: &mut StoreTxn<V>) -> Result<u64, Cause> {
        match self.store.step_revert(alloc, actor, txn) {
            Ok(commit) => Ok(commit),
            Err(error) => Err(cause_of(error)),
        }
    }

    fn end(&mut self, actor: u32, txn: StoreTxn<V>) -> Result<(), StoreTxn<V>> {
        self.store.step_end(actor, txn)
    }

    fn sync(&mut self, actor: u32) -> Result<(), Cause> {
        match self.store.step_sync(actor) {
            Ok(()) => Ok(()),
            Err(error) => Err(cause_of(error)),
        }
    }

    fn stop(
        &mut self,
        actor: u32,
        txn: Option<StoreTxn<V>>,
        line: u32,
        cause: Cause,
        origin: Origin,
    )
        requires { CanStop (⟦<StoreState<V> as Space>⟧.view self.old.store) actor (is_some txn)
            (faults_in ⟦<StoreTxn<V> as Local>⟧.faults txn) cause origin }
        ensures entry { self.new.store.journal.items
            ≡ entered self.old.store.journal.items actor (step.Stop line cause origin) }
        ensures keeps { KeepsSpace (⟦<StoreState<V> as Space>⟧.view self.old.store)
            (⟦<StoreState<V> as Space>⟧.view self.new.store) }
    {
        self.store.step_stop(actor, txn, line, cause, origin);
    }
}
