//! The transaction.
ghost use Rattle.std.specs.Prelude.{◌≡◌, ◌≢◌, ℕ, [], IsTrue, OnErr};
ghost use Rattle.std.specs.FinMap.{empty};
ghost use Rattle.std.proofs.Props.{props};
ghost use Rattle.xod_base.specs.Views.{KeepsView};
ghost use Rattle.xod_journal.specs.Changes.{all_applied, has_names};
ghost use Rattle.xod_journal.specs.Locals.{Acts, CountsFaults, Finds, IsExpected};
ghost use Rattle.xod_journal.specs.Shows.{shown_of};
ghost use Rattle.xod_overlay.specs.Marks.{touched};
ghost use Rattle.xod_estxn.specs.Facts.{same_changes, same_rows, same_touches, same_tree, touches_fit};
ghost use Rattle.xod_estxn.specs.Txns.{IsKept, IsOver, MayBegin, base_rows, txn_over};

use crate::answer::answer_to;
use crate::keeping::keep;
use crate::known::know_changes;
use crate::laws::know_laws;
use crate::over::{evaluate_over, expand_over, show_over};
use crate::refusal::refusal;
use std::alloc::Global;
use std::marker::Brand;
use xod_base::{Act, ActAnswer, Answer, EntityId, Mode, Query, Shown, StmtError, TreeView};
use xod_cache::Adapter;
use xod_journal::ChangeList;
use xod_overlay::Overlay;

/// A transaction of a mode over a view of a commit, with its own changes since.
///
/// It is not dropped where its view is not: `into_parts` hands back what it was made of.
pub struct EntityTxn<T: TreeView> {
    view: T,
    adapter: Adapter,
    mode: Mode,
    own: Overlay,
    changes: ChangeList,
    ghost kept: { IsKept changes (touched own) } by { Prim.hlevel (props, touches_fit, same_touches, same_changes) },
    ghost over: { IsTrue (T.tells view) → IsOver (T.trees view) changes (touched own) } by { Prim.hlevel (props, same_tree, same_rows) },
}

impl<T: TreeView> EntityTxn<T> {
    /// A transaction without changes.
    ///
    /// Where the view tells, its trees are the tables of some rows, whose type names the adapter has.
    pub fn new(alloc: Global, view: T, adapter: Adapter, mode: Mode) -> Self
        requires { MayBegin (T.tells view) (T.trees view) adapter.names }
        ensures view { result.view ≡ view }
        ensures adapter { result.adapter ≡ adapter }
        ensures mode { result.mode ≡ mode }
        ensures unchanged { result.changes ≡ [] }
        ensures untouched { (tree : ℕ) → touched result.own tree ≡ empty }
    {
        know_laws();
        EntityTxn {
            view,
            adapter,
            mode,
            own: Overlay::new(alloc),
            changes: ChangeList::new(alloc),
        }
    }

    /// Makes the changes of an act. A refusal changes nothing.
    ///
    /// `Same` comes exactly where the act has no change.
    pub fn act(&mut self, alloc: Global, act: &Act) -> Result<ActAnswer, StmtError>
        requires { IsTrue (has_names act.now) }
        ensures acts { Acts (T.tells self.old.view) act.now
            (txn_over self.old.mode (T.commit self.old.view) (T.trees self.old.view) self.old.changes)
            (txn_over self.new.mode (T.commit self.new.view) (T.trees self.new.view) self.new.changes) result }
        ensures untouched { OnErr result (touched self.new.own ≡ touched self.old.own) }
        ensures counts { CountsFaults (T.faults self.old.view) (T.faults self.new.view) result }
        ensures keeps { KeepsView T.tells T.trees T.commit T.refs T.faults self.old.view self.new.view }
        ensures adapter { self.new.adapter ≡ self.old.adapter }
    {
        match self.mode {
            Mode::ReadOnly => Err(StmtError::ReadOnly),
            Mode::Ordinary | Mode::Exclusive => self.write(alloc, act),
        }
    }

    /// Makes the changes of an act, in a mode that writes. A refusal changes nothing.
    fn write(&mut self, alloc: Global, act: &Act) -> Result<ActAnswer, StmtError>
        requires names { IsTrue (has_names act.now) }
        requires writes { self.old.mode ≢ Mode.ReadOnly }
        ensures acts { Acts (T.tells self.old.view) act.now
            (txn_over self.old.mode (T.commit self.old.view) (T.trees self.old.view) self.old.changes)
            (txn_over self.new.mode (T.commit self.new.view) (T.trees self.new.view) self.new.changes) result }
        ensures untouched { OnErr result (touched self.new.own ≡ touched self.old.own) }
        ensures counts { CountsFaults (T.faults self.old.view) (T.faults self.new.view) result }
        ensures keeps { KeepsView T.tells T.trees T.commit T.refs T.faults self.old.view self.new.view }
        ensures adapter { self.new.adapter ≡ self.old.adapter }
    {
        know_laws();
        let plan = expand_over::<T, Brand>(&mut self.view, &self.own, alloc, act)?;
        know_changes(plan.changes.as_slice());
        let answer = answer_to(plan.changes.as_slice());
        keep(&mut self.changes, &mut self.own, alloc, plan)?;
        Ok(answer)
    }

    /// What belongs to an entity, with the transaction's own changes, or the refusal where it is not there.
    pub fn show(&mut self, alloc: Global, id: EntityId) -> Result<Shown, StmtError>
        ensures shows { IsTrue (T.tells self.old.view)
            → IsExpected (shown_of (all_applied (base_rows (T.trees self.old.view)) self.old.changes) id) result }
        ensures counts { CountsFaults (T.faults self.old.view) (T.faults self.new.view) result }
        ensures keeps { KeepsView T.tells T.trees T.commit T.refs T.faults self.old.view self.new.view }
        ensures mode { self.new.mode ≡ self.old.mode }
        ensures changes { self.new.changes ≡ self.old.changes }
        ensures untouched { touched self.new.own ≡ touched self.old.own }
        ensures adapter { self.new.adapter ≡ self.old.adapter }
    {
        show_over::<T, Brand>(&mut self.view, &self.own, alloc, id)
    }

    /// The ids that a query names, with the transaction's own changes. Only the outside and memory refuse it.
    pub fn query(&mut self, alloc: Global, query: &Query) -> Result<Answer, StmtError>
        ensures finds { Finds (T.tells self.old.view) query.now
            (txn_over self.old.mode (T.commit self.old.view) (T.trees self.old.view) self.old.changes) result }
        ensures counts { CountsFaults (T.faults self.old.view) (T.faults self.new.view) result }
        ensures keeps { KeepsView T.tells T.trees T.commit T.refs T.faults self.old.view self.new.view }
        ensures mode { self.new.mode ≡ self.old.mode }
        ensures changes { self.new.changes ≡ self.old.changes }
        ensures untouched { touched self.new.own ≡ touched self.old.own }
        ensures adapter { self.new.adapter ≡ self.old.adapter }
    {
        match evaluate_over::<T, Brand>(&mut self.view, &self.own, alloc, query) {
            Ok(ids) => Ok(Answer { ids, hit: false }),
            Err(error) => Err(refusal(error)),
        }
    }

    /// The view that it is over.
    pub fn view(&self) -> &T
        ensures { result.now ≡ self.now.view }
    {
        &self.view
    }

    /// Its touched keys. There are some exactly where it has changes, and all may be committed.
    pub fn overlay(&self) -> &Overlay
        ensures overlay { result.now ≡ self.now.own }
        ensures kept { IsKept self.now.changes (touched result.now) }
        ensures over { IsTrue (T.tells self.now.view) → IsOver (T.trees self.now.view) self.now.changes (touched result.now) }
    {
        &self.own
    }

    /// Its own changes, in the order in which they were made.
    pub fn changes(&self) -> &ChangeList
        ensures { result.now ≡ self.now.changes }
    {
        &self.changes
    }

    /// Drops its changes and goes on over another view; hands back the one it had, and its adapter. The conditions are
    /// those of `new`.
    pub fn renew(&mut self, alloc: Global, view: T, adapter: Adapter) -> (T, Adapter)
        requires { MayBegin (T.tells view) (T.trees view) adapter.names }
        ensures back { result ≡ (self.old.view, self.old.adapter) }
        ensures view { self.new.view ≡ view }
        ensures adapter { self.new.adapter ≡ adapter }
        ensures mode { self.new.mode ≡ self.old.mode }
        ensures unchanged { self.new.changes ≡ [] }
        ensures untouched { (tree : ℕ) → touched self.new.own tree ≡ empty }
    {
        let txn = EntityTxn::new(alloc, view, adapter, self.mode);
        let old = std::mem::replace(self, txn);
        old.into_parts()
    }

    /// What it was made of.
    pub fn into_parts(self) -> (T, Adapter)
        ensures { result ≡ (self.view, self.adapter) }
    {
        let EntityTxn {
            view,
            adapter,
            mode: _,
            own: _,
            changes: _,
        } = self;
        (view, adapter)
    }
}
