//! A transaction over rows in lists.
//!
//! Its rows are shared until its first change. What it answers stands in `xod_journal`, in `specs/Locals.antt`.
ghost use Rattle.std.specs.Prelude.{◌≡◌, [], true, IsTrue, OnOk, OnErr};
ghost use Rattle.xod_journal.specs.Changes.{act_outcome, expansion_of, has_names};
ghost use Rattle.xod_journal.specs.Txns.{pinned_of, txn_acted};
ghost use Rattle.xod_model.specs.PlainTxns.{plain_txn};
ghost use Rattle.xod_model.specs.Refusals.{Tells};

use crate::expansion::answer_to;
use crate::room::make_room;
use crate::rows::{Rows, plain_eval};
use crate::shared::SharedRows;
use std::alloc::Global;
use std::snapshot::Snapshot;
use xod_base::{Act, ActAnswer, Answer, EntityId, Mode, Query, Shown, StmtError};
use xod_journal::{Local, RowChange};

/// An open transaction: its mode, the commit that it sees, its own changes since, and the rows with them made. The rows
/// that it began with are known to contracts alone.
#[derive(Drop)]
pub struct PlainTxn {
    pub(crate) mode: Mode,
    pub(crate) base: u64,
    pub(crate) begun: Snapshot<Rows>,
    pub(crate) own: Vec<RowChange>,
    pub(crate) rows: SharedRows,
}

impl PlainTxn {
    /// Makes the changes of an act, in a mode that writes.
    fn write(&mut self, alloc: Global, act: &Act) -> Result<ActAnswer, StmtError>
        requires { IsTrue (has_names act.now) }
        ensures answer { Tells (act_outcome (expansion_of self.old.rows act.now)) result }
        ensures changed { OnOk result (plain_txn self.new
            ≡ txn_acted (plain_txn self.old) (expansion_of self.old.rows act.now)) }
        ensures refused { OnErr result (plain_txn self.new ≡ plain_txn self.old) }
    {
        let changes = self.rows.as_rows().expand(alloc, act)?;
        make_room(&mut self.own, changes.len())?;
        self.rows.change(alloc, &changes)?;
        let answer = answer_to(&changes);
        let mut changes = changes.into_vec();
        let Ok(()) = self.own.append(&mut changes) else {
            unreachable!();
        };
        Ok(answer)
    }
}

impl Local for PlainTxn {
    ghost tells = { λ _. true };

    ghost txn = { plain_txn };

    ghost refs = { λ _. [] };

    ghost faults = { λ _. 0 };

    fn act(&mut self, alloc: Global, act: &Act) -> Result<ActAnswer, StmtError> {
        match self.mode {
            Mode::ReadOnly => Err(StmtError::ReadOnly),
            Mode::Ordinary | Mode::Exclusive => self.write(alloc, act),
        }
    }

    fn show(&mut self, alloc: Global, id: EntityId) -> Result<Shown, StmtError> {
        self.rows.as_rows().show(alloc, id)
    }

    fn query(&mut self, alloc: Global, query: &Query) -> Result<Answer, StmtError> {
        let ids = plain_eval(alloc, query, self.rows.as_rows())?;
        Ok(Answer { ids, hit: false })
    }
}
