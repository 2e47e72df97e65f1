//! The transaction, as a session sees it.
ghost use Rattle.xod_estxn.specs.Txns.{txn_over};

use crate::txn::EntityTxn;
use std::alloc::Global;
use xod_base::{Act, ActAnswer, Answer, EntityId, Query, Shown, StmtError, TreeView};
use xod_journal::Local;

impl<T: TreeView> Local for EntityTxn<T> {
    ghost tells = { λ txn. T.tells txn.view };

    ghost txn = { λ txn. txn_over txn.mode (T.commit txn.view) (T.trees txn.view) txn.changes };

    ghost refs = { λ txn. T.refs txn.view };

    ghost faults = { λ txn. T.faults txn.view };

    fn act(&mut self, alloc: Global, act: &Act) -> Result<ActAnswer, StmtError> {
        EntityTxn::act(self, alloc, act)
    }

    fn show(&mut self, alloc: Global, id: EntityId) -> Result<Shown, StmtError> {
        EntityTxn::show(self, alloc, id)
    }

    fn query(&mut self, alloc: Global, query: &Query) -> Result<Answer, StmtError> {
        EntityTxn::query(self, alloc, query)
    }
}
