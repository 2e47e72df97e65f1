//! An open transaction that fails as planned.
//!
//! Its rows are a copy of those of its base, with its own changes made. It does not tell them. What it answers stands in
//! `xod_journal`, in `specs/Locals.antt`.
ghost use Rattle.std.specs.Prelude.{◌≡◌, [], false, IfErr, IsTrue, OnErr, OnOk};
ghost use Rattle.xod_journal.specs.Changes.{act_outcome, expansion_of, has_names};
ghost use Rattle.xod_journal.specs.Locals.{CountsFaults, is_outside};
ghost use Rattle.xod_journal.specs.Txns.{txn_acted};
ghost use Rattle.xod_model.specs.Refusals.{Tells};
ghost use Rattle.xod_spaces.specs.FaultyTxns.{faulty_txn};

use crate::plan::{Plan, Trouble};
use crate::room::make_room;
use std::alloc::Global;
use xod_base::{Act, ActAnswer, Answer, Cause, EntityId, Mode, Place, Query, Shown, StmtError};
use xod_journal::{Local, RowChange};
use xod_model::{Rows, answer_to, plain_eval};

/// An open transaction: its mode, the commit that it sees, its own changes since, and the rows with them made.
#[derive(Drop)]
pub struct FaultyTxn {
    pub(crate) mode: Mode,
    pub(crate) base: u64,
    pub(crate) own: Vec<RowChange>,
    pub(crate) rows: Rows,
    pub(crate) plan: Plan,
    pub(crate) faults: u64,
}

impl FaultyTxn {
    /// Counts a call, and refuses it where that is planned.
    fn admit(&mut self) -> Result<(), StmtError>
        ensures same { faulty_txn self.new ≡ faulty_txn self.old }
        ensures counts { CountsFaults self.old.faults self.new.faults result }
        ensures outside { IfErr result (λ error. IsTrue (is_outside error)) }
    {
        match self.plan.next() {
            Some(Trouble::Refused(Cause::Device)) => {
                self.faults = self.faults.saturating_add(1);
                Err(StmtError::Device)
            }
            Some(Trouble::Refused(Cause::Damaged)) => {
                Err(StmtError::Damaged(Place { file: 0, at: 0 }))
            }
            Some(Trouble::Refused(Cause::Memory)) => Err(StmtError::Memory),
            _ => Ok(()),
        }
    }

    /// Makes the changes of an act, in a mode that writes.
    fn write(&mut self, alloc: Global, act: &Act) -> Result<ActAnswer, StmtError>
        requires { IsTrue (has_names act.now) }
        ensures answer { Tells (act_outcome (expansion_of self.old.rows act.now)) result }
        ensures changed { OnOk result (faulty_txn self.new
            ≡ txn_acted (faulty_txn self.old) (expansion_of self.old.rows act.now)) }
        ensures refused { OnErr result (faulty_txn self.new ≡ faulty_txn self.old) }
        ensures faults { self.new.faults ≡ self.old.faults }
    {
        let changes = self.rows.expand(alloc, act)?;
        make_room(&mut self.own, changes.len())?;
        self.rows.apply(alloc, &changes)?;
        let answer = answer_to(&changes);
        let mut changes = changes.into_vec();
        let Ok(()) = self.own.append(&mut changes) else {
            unreachable!();
        };
        Ok(answer)
    }
}

impl Local for FaultyTxn {
    ghost tells = { λ _. false };

    ghost txn = { faulty_txn };

    ghost refs = { λ _. [] };

    ghost faults = { λ txn. txn.faults };

    fn act(&mut self, alloc: Global, act: &Act) -> Result<ActAnswer, StmtError> {
        self.admit()?;
        match self.mode {
            Mode::ReadOnly => Err(StmtError::ReadOnly),
            Mode::Ordinary | Mode::Exclusive => self.write(alloc, act),
        }
    }

    fn show(&mut self, alloc: Global, id: EntityId) -> Result<Shown, StmtError> {
        self.admit()?;
        self.rows.show(alloc, id)
    }

    fn query(&mut self, alloc: Global, query: &Query) -> Result<Answer, StmtError> {
        self.admit()?;
        let ids = plain_eval(alloc, query, &self.rows)?;
        Ok(Answer { ids, hit: false })
    }
}
