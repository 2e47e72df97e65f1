//! A store that fails as planned, and the journal of what was done to it.
//!
//! Each call but a stop counts, and one may be planned to go wrong. The rows are copied at a begin, a revert and a commit.
//! What each call answers stands in `xod_journal`, in `specs/Spaces.antt`.
ghost use Rattle.std.specs.Prelude.{◌≡◌, ◌≤◌, ◌+◌, false, IfErr, IfOk, IfSome, IsTrue, OnOk, [], is_some, vec_len, vec_capacity};
ghost use Rattle.xod_base.specs.Causes.{Rose};
ghost use Rattle.xod_journal.specs.Books.{flush_answer, version_of as version_in};
ghost use Rattle.xod_journal.specs.declared.journal.Step.TheVariants as step;
ghost use Rattle.xod_journal.specs.Seats.{entered};
ghost use Rattle.xod_journal.specs.Spaces.{CanStop, KeepsSpace, Refuses, faults_in};
ghost use Rattle.xod_spaces.specs.FaultyLaw.{faulty_lawful};
ghost use Rattle.xod_spaces.specs.Keeping.{Keeps};
ghost use Rattle.xod_spaces.specs.Outsides.{Spends};
ghost use Rattle.xod_spaces.specs.Views.{faulty_view};

use crate::outside::Outside;
use crate::plan::{Plan, Planned, Trouble};
use crate::room::{enter, make_room};
use crate::txn::FaultyTxn;
use crate::txns::TxnMap;
use std::alloc::Global;
use xod_base::{Cause, FlushAnswer, Memory, Mode};
use xod_journal::{
    BeginFault, JournalEntry, Local, Origin, Pinned, RowChange, Space, Step, copy_changes,
};
use xod_model::Rows;

/// A store that fails as planned.
#[derive(Drop)]
pub struct FaultySpace {
    pub(crate) plan: Plan,
    /// What goes wrong in each transaction, at one of its private calls.
    pub(crate) private: Option<Planned>,
    pub(crate) outside: Outside,
    pub(crate) first: u64,
    pub(crate) sessions: u32,
    pub(crate) commit: u64,
    pub(crate) rows: Rows,
    pub(crate) txns: TxnMap,
    pub(crate) journal: Vec<JournalEntry>,
    ghost kept: { Keeps first journal.items commit txns sessions (vec_len journal) (vec_capacity journal) outside.faults },
}

/// What a flush answers, and `None` where it needs a next number and there is none.
fn answer_at(own: &[RowChange], base: u64, now: u64) -> Option<FlushAnswer>
    ensures { IfSome result (λ answer. answer ≡ flush_answer now base own.now) }
{
    if own.is_empty() {
        return Some(FlushAnswer::Nothing);
    }
    if base != now {
        return Some(FlushAnswer::Conflict { base, now });
    }
    let version = now.checked_add(1)?;
    Some(FlushAnswer::Committed {
        version,
        fault: None,
    })
}

/// The number of the commit that a flush made.
fn version_of(answer: FlushAnswer) -> Option<u64>
    ensures { result ≡ version_in answer }
{
    match answer {
        FlushAnswer::Committed { version, .. } => Some(version),
        FlushAnswer::Nothing | FlushAnswer::Conflict { .. } => None,
    }
}

/// How often the device failed in a transaction that may be absent.
fn faults_of(txn: &Option<FaultyTxn>) -> u64
    ensures { result ≡ faults_in ⟦<FaultyTxn as Local>⟧.faults txn.now }
{
    match txn {
        Some(txn) => txn.faults,
        None => 0,
    }
}

impl FaultySpace {
    ghost use Rattle.xod_spaces.specs.Frames.{IsSameStore};

    /// A store without contents at this commit, for so many sessions. It makes the room for one stop of each.
    pub fn new(
        alloc: Global,
        commit: u64,
        sessions: u32,
        shared: Option<Planned>,
        private: Option<Planned>,
    ) -> Result<Self, Memory>
        ensures journal { IfOk result (λ space. (⟦<FaultySpace as Space>⟧.view space).journal ≡ []) }
        ensures sessions { IfOk result (λ space. (⟦<FaultySpace as Space>⟧.view space).sessions ≡ sessions) }
    {
        let mut journal = Vec::new(alloc);
        make_room(&mut journal, sessions as usize)?;
        Ok(FaultySpace {
            plan: Plan::new(shared),
            private,
            outside: Outside::new(),
            first: commit,
            sessions,
            commit,
            rows: Rows::empty(alloc),
            txns: TxnMap::new(alloc),
            journal,
        })
    }

    /// Counts a call, and makes the room for its entry. Answers what else is planned for it, or why it is refused.
    fn admit(&mut self, flushes: bool) -> Result<Option<Trouble>, Cause>
        ensures same { IsSameStore self.old self.new }
        ensures room { OnOk result (vec_len self.new.journal + (self.new.sessions + 1)
            ≤ vec_capacity self.new.journal) }
        ensures unbroken { OnOk result (self.old.outside.is_broken ≡ false) }
        ensures keeps { KeepsSpace (⟦<FaultySpace as Space>⟧.view self.old)
            (⟦<FaultySpace as Space>⟧.view self.new) }
        ensures refused { IfErr result (Refuses (⟦<FaultySpace as Space>⟧.view self.old)
            (⟦<FaultySpace as Space>⟧.view self.new) (Rose self.old.outside.faults self.new.outside.faults)
            (Spends flushes self.new.outside.is_last)) }
    {
        let trouble = self.plan.next();
        if let Some(cause) = self.outside.refusal(trouble, flushes) {
            return Err(cause);
        }
        make_room(&mut self.journal, self.sessions as usize + 1)?;
        Ok(trouble)
    }

    /// Counts an end, and makes the room for its entry; false where there is none.
    fn can_end(&mut self) -> bool
        ensures same { IsSameStore self.old self.new }
        ensures outside { self.new.outside ≡ self.old.outside }
        ensures room { IsTrue result → vec_len self.new.journal + (self.new.sessions + 1)
            ≤ vec_capacity self.new.journal }
    {
        if self.plan.next() == Some(Trouble::Refused(Cause::Memory)) {
            return false;
        }
        make_room(&mut self.journal, self.sessions as usize + 1).is_ok()
    }
}

impl Space for FaultySpace {
    type Open = FaultyTxn;

    ghost view = { λ s. faulty_view s.first s.journal.items s.sessions s.outside };

    ghost lawful = { λ s. faulty_lawful _ _ _ _ _ _ _ s.outside s.kept };

    fn begin(
        &mut self,
        alloc: Global,
        actor: u32,
        mode: Mode,
    ) -> Result<(u64, FaultyTxn), BeginFault> {
        if let Some(holder) = self.txns.holder(mode) {
            return Err(BeginFault::Busy { holder });
        }
        if let Err(cause) = self.admit(false) {
            return Err(BeginFault::Cause(cause));
        }
        let base = self.commit;
        let rows = self.rows.try_clone(alloc)?;
        self.txns.set(actor, Pinned { mode, base })?;
        enter(&mut self.journal, actor, Step::Begin { mode });
        let txn = FaultyTxn {
            mode,
            base,
            own: Vec::new(alloc),
            rows,
            plan: Plan::new(self.private),
            faults: 0,
        };
        Ok((base, txn))
    }

    fn flush(
        &mut self,
        alloc: Global,
        actor: u32,
        txn: &mut FaultyTxn,
    ) -> Result<FlushAnswer, Cause> {
        let trouble = self.admit(true)?;
        let Some(answer) = answer_at(&txn.own, txn.base, self.commit) else {
            self.outside.is_last = true;
            return Err(Cause::Spent);
        };
        let changes = copy_changes(alloc, &txn.own)?;
        let Some(version) = version_of(answer) else {
            let version = None;
            enter(&mut self.journal, actor, Step::Flush { changes, version });
            return Ok(answer);
        };
        let mode = txn.mode;
        let rows = txn.rows.try_clone(alloc)?;
        self.txns.set(
            actor,
            Pinned {
                mode,
                base: version,
            },
        )?;
        self.rows = rows;
        self.commit = version;
        let made = Some(version);
        enter(
            &mut self.journal,
            actor,
            Step::Flush {
                changes,
                version: made,
            },
        );
        if let Some(cause) = self.outside.fault(trouble) {
            let fault = Some(cause);
            return Ok(FlushAnswer::Committed { version, fault });
        }
        let fault = None;
        txn.base = version;
        txn.own = Vec::new(alloc);
        Ok(FlushAnswer::Committed { version, fault })
    }

    fn revert(&mut self, alloc: Global, actor: u32, txn: &mut FaultyTxn) -> Result<u64, Cause> {
        self.admit(false)?;
        let base = self.commit;
        let mode = txn.mode;
        let rows = self.rows.try_clone(alloc)?;
        self.txns.set(actor, Pinned { mode, base })?;
        txn.base = base;
        txn.own = Vec::new(alloc);
        txn.rows = rows;
        enter(&mut self.journal, actor, Step::Revert);
        Ok(base)
    }

    fn end(&mut self, actor: u32, txn: FaultyTxn) -> Result<(), FaultyTxn> {
        if !self.can_end() {
            return Err(txn);
        }
        self.txns.remove(actor);
        enter(&mut self.journal, actor, Step::End);
        Ok(())
    }

    fn sync(&mut self, actor: u32) -> Result<(), Cause> {
        self.admit(false)?;
        enter(&mut self.journal, actor, Step::Sync);
        Ok(())
    }

    fn stop(&mut self, actor: u32, txn: Option<FaultyTxn>, line: u32, cause: Cause, origin: Origin)
        requires { CanStop (⟦<FaultySpace as Space>⟧.view self.old) actor (is_some txn)
            (faults_in ⟦<FaultyTxn as Local>⟧.faults txn) cause origin }
        ensures entry { self.new.journal.items
            ≡ entered self.old.journal.items actor (step.Stop line cause origin) }
        ensures keeps { KeepsSpace (⟦<FaultySpace as Space>⟧.view self.old)
            (⟦<FaultySpace as Space>⟧.view self.new) }
    {
        self.outside.count(faults_of(&txn));
        self.txns.remove(actor);
        enter(
            &mut self.journal,
            actor,
            Step::Stop {
                line,
                cause,
                origin,
            },
        );
    }
}
