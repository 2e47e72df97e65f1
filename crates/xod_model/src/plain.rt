//! The store over rows in lists.
//!
//! A begin shares the rows, and a transaction copies them before its first change after that. A flush makes the
//! transaction's rows those of the store. What each call answers stands in `xod_journal`, in `specs/Spaces.antt`.
ghost use Rattle.std.specs.Prelude.{◌≡◌, ◌⊎◌, true, IsTrue, [], IfOk, IfErr, OnOk, OnErr, is_some, vec_len, vec_capacity};
ghost use Rattle.xod_base.specs.Causes.{Rose};
ghost use Rattle.xod_base.specs.Rows.{is_sound};
ghost use Rattle.xod_journal.specs.declared.journal.Step.TheVariants as step;
ghost use Rattle.xod_journal.specs.Seats.{entered};
ghost use Rattle.xod_journal.specs.Locals.{KeepsLocal};
ghost use Rattle.xod_journal.specs.Spaces.{CanStop, Flushes, IsFlushed, IsOpen, KeepsSpace, Refuses, faults_in, newest_of};
ghost use Rattle.xod_model.specs.Plain.{CannotFail, Keeps, SpentExactly, needs_more, plain_view};
ghost use Rattle.xod_model.specs.PlainTxns.{plain_txn};
ghost use Rattle.xod_model.specs.PlainLaw.{plain_lawful};

use crate::plain_txn::PlainTxn;
use crate::room::{enter, make_room, with_room};
use crate::rows::Rows;
use crate::shared::SharedRows;
use crate::txns::TxnMap;
use std::alloc::Global;
use std::snapshot::Snapshot;
use xod_base::{Cause, FlushAnswer, Memory, Mode};
use xod_journal::{
    BeginFault, ChangeList, JournalEntry, Local, Origin, Pinned, Space, Step, copy_changes,
};

/// A store in lists, and the journal of what was done to it.
#[derive(Drop)]
pub struct PlainSpace {
    pub(crate) origin: Snapshot<Rows>,
    pub(crate) first: u64,
    pub(crate) sessions: u32,
    pub(crate) commit: u64,
    pub(crate) rows: SharedRows,
    pub(crate) txns: TxnMap,
    pub(crate) journal: Vec<JournalEntry>,
    ghost kept: { Keeps (record { rows = origin.value; commit = first }) journal.items commit txns rows sessions (vec_len journal) (vec_capacity journal) },
}

impl PlainSpace {
    /// A store with these rows at this commit, for so many sessions. It makes the room for one stop of each.
    pub fn new(alloc: Global, rows: Rows, commit: u64, sessions: u32) -> Result<Self, Memory>
        ensures { IfOk result (λ space. ⟦<PlainSpace as Space>⟧.view space
            ≡ plain_view (record { rows = rows; commit = commit }) [] commit sessions) }
    {
        rows.are_sound();
        let origin = Snapshot::of(&rows);
        let rows = SharedRows::new(alloc, rows)?;
        let txns = TxnMap::new(alloc);
        let journal = with_room(alloc, sessions as usize)?;
        Ok(PlainSpace {
            origin,
            first: commit,
            sessions,
            commit,
            rows,
            txns,
            journal,
        })
    }

    /// The newest rows.
    pub fn rows(&self) -> &Rows
        ensures { result.now ≡ (newest_of (⟦<PlainSpace as Space>⟧.view self.now)).rows }
    {
        self.rows.as_rows()
    }

    /// The number of the newest commit.
    pub fn commit(&self) -> u64
        ensures { result ≡ (newest_of (⟦<PlainSpace as Space>⟧.view self.now)).commit }
    {
        self.commit
    }

    /// The steps that were taken.
    pub fn journal(&self) -> &[JournalEntry]
        ensures { result.now ≡ (⟦<PlainSpace as Space>⟧.view self.now).journal }
    {
        &self.journal
    }

    /// Nothing outside of it can fail.
    pub fn cannot_fail(&self)
        ensures { CannotFail (⟦<PlainSpace as Space>⟧.view self.now) }
    {}
}

impl Space for PlainSpace {
    type Open = PlainTxn;

    ghost view = { λ s. plain_view (record { rows = s.origin.value; commit = s.first }) s.journal.items s.commit s.sessions };

    ghost lawful = { λ s. plain_lawful _ _ _ _ _ _ _ _ s.kept };

    fn begin(
        &mut self,
        alloc: Global,
        actor: u32,
        mode: Mode,
    ) -> Result<(u64, PlainTxn), BeginFault> {
        if let Some(holder) = self.txns.holder(mode) {
            return Err(BeginFault::Busy { holder });
        }
        make_room(&mut self.journal, self.sessions as usize + 1)?;
        let base = self.commit;
        let rows = self.rows.share()?;
        self.txns.set(actor, Pinned { mode, base })?;
        enter(&mut self.journal, actor, Step::Begin { mode });
        let own = Vec::new(alloc);
        let begun = Snapshot::of(rows.as_rows());
        Ok((
            base,
            PlainTxn {
                mode,
                base,
                begun,
                own,
                rows,
            },
        ))
    }

    fn flush(&mut self, alloc: Global, actor: u32, txn: &mut PlainTxn) -> Result<FlushAnswer, Cause>
        requires { IsOpen (⟦<PlainSpace as Space>⟧.view self.old) actor true (plain_txn txn.old) }
        ensures flushes { IfOk result (λ answer. Flushes actor (⟦<PlainSpace as Space>⟧.view self.old)
            (⟦<PlainSpace as Space>⟧.view self.new) answer (plain_txn txn.old)) }
        ensures flushed { IfOk result (λ answer. IsFlushed ⟦<PlainTxn as Local>⟧.tells
            ⟦<PlainTxn as Local>⟧.txn ⟦<PlainTxn as Local>⟧.refs ⟦<PlainTxn as Local>⟧.faults
            (⟦<PlainSpace as Space>⟧.view self.old) (⟦<PlainSpace as Space>⟧.view self.new)
            answer txn.old txn.new) }
        ensures refused { IfErr result (Refuses (⟦<PlainSpace as Space>⟧.view self.old)
            (⟦<PlainSpace as Space>⟧.view self.new) (Rose 0 0 ⊎ Rose 0 0)
            (IsTrue ((⟦<PlainSpace as Space>⟧.view self.new).is_last))) }
        ensures kept { OnErr result (KeepsLocal ⟦<PlainTxn as Local>⟧.tells
            ⟦<PlainTxn as Local>⟧.txn ⟦<PlainTxn as Local>⟧.refs ⟦<PlainTxn as Local>⟧.faults
            txn.old txn.new) }
        ensures keeps { KeepsSpace (⟦<PlainSpace as Space>⟧.view self.old)
            (⟦<PlainSpace as Space>⟧.view self.new) }

        // Nothing fails but memory, and that the last number stands where a next one is needed.
        ensures spent { SpentExactly
            (needs_more self.old.commit txn.old.base txn.old.own.items) result }
    {
        make_room(&mut self.journal, self.sessions as usize + 1)?;
        let base = txn.base;
        let now = self.commit;
        let version = None;
        if txn.own.as_slice().is_empty() {
            let changes = ChangeList::new(alloc);
            enter(&mut self.journal, actor, Step::Flush { changes, version });
            return Ok(FlushAnswer::Nothing);
        }
        if base != now {
            let changes = copy_changes(alloc, &txn.own)?;
            enter(&mut self.journal, actor, Step::Flush { changes, version });
            return Ok(FlushAnswer::Conflict { base, now });
        }
        if now == u64::MAX {
            return Err(Cause::Spent);
        }
        let next = now + 1;
        let mode = txn.mode;
        let rows = txn.rows.share()?;
        self.txns.set(actor, Pinned { mode, base: next })?;
        let own = std::mem::replace(&mut txn.own, Vec::new(alloc));
        let changes = ChangeList::from_vec(own);
        let version = Some(next);
        txn.base = next;
        txn.begun = Snapshot::of(rows.as_rows());
        self.rows = rows;
        self.commit = next;
        enter(&mut self.journal, actor, Step::Flush { changes, version });
        Ok(FlushAnswer::Committed {
            version: next,
            fault: None,
        })
    }

    fn revert(&mut self, alloc: Global, actor: u32, txn: &mut PlainTxn) -> Result<u64, Cause> {
        make_room(&mut self.journal, self.sessions as usize + 1)?;
        let base = self.commit;
        let mode = txn.mode;
        let rows = self.rows.share()?;
        self.txns.set(actor, Pinned { mode, base })?;
        txn.base = base;
        txn.begun = Snapshot::of(rows.as_rows());
        txn.own = Vec::new(alloc);
        txn.rows = rows;
        enter(&mut self.journal, actor, Step::Revert);
        Ok(base)
    }

    fn end(&mut self, actor: u32, txn: PlainTxn) -> Result<(), PlainTxn> {
        let Ok(()) = make_room(&mut self.journal, self.sessions as usize + 1) else {
            return Err(txn);
        };
        self.txns.remove(actor);
        enter(&mut self.journal, actor, Step::End);
        Ok(())
    }

    fn sync(&mut self, actor: u32) -> Result<(), Cause> {
        make_room(&mut self.journal, self.sessions as usize + 1)?;
        enter(&mut self.journal, actor, Step::Sync);
        Ok(())
    }

    fn stop(&mut self, actor: u32, txn: Option<PlainTxn>, line: u32, cause: Cause, origin: Origin)
        requires { CanStop (⟦<PlainSpace as Space>⟧.view self.old) actor (is_some txn)
            (faults_in ⟦<PlainTxn as Local>⟧.faults txn) cause origin }
        ensures entry { self.new.journal.items
            ≡ entered self.old.journal.items actor (step.Stop line cause origin) }
        ensures keeps { KeepsSpace (⟦<PlainSpace as Space>⟧.view self.old)
            (⟦<PlainSpace as Space>⟧.view self.new) }
    {
        let _ = txn;
        self.txns.remove(actor);
        enter(
            &mut self.journal,
            actor,
            Step::Stop {
                line,
                cause,
                origin,
            },
        );
    }
}
