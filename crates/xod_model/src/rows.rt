//! The contents of a store, always sound.
ghost use Rattle.std.specs.Prelude.{◌≡◌, IfErr, IfOk, IsTrue, Ok, is_ok, if◌then◌else◌};
ghost use Rattle.xod_base.specs.Evaluation.{answer_of};
ghost use Rattle.xod_base.specs.Rows.{is_sound, no_rows};
ghost use Rattle.xod_journal.specs.Changes.{all_applied, all_fit, applied, expansion_of, fits, has_names};
ghost use Rattle.xod_journal.specs.Shows.{shown_of};
ghost use Rattle.xod_model.specs.Entries.{rows_of};
ghost use Rattle.xod_model.specs.Refusals.{Refuses};

use crate::lists::Lists;
use std::alloc::Global;
use std::marker::Model;
use xod_base::{Act, EntityId, IdList, Memory, Query, Shown, StmtError};
use xod_journal::{ChangeList, RowChange, changes_keep_sound, expansions_fit, names_stay};

/// Rows in lists; ids, properties and links are kept in their order.
#[derive(Debug, Drop)]
pub struct Rows {
    lists: Lists,
}

impl Model for Rows {
    ghost use Rattle.std.specs.Prelude.{IsTrue};
    ghost use Rattle.xod_base.specs.Rows.{RowsValue, is_sound, rows_code};

    ghost Value = { RowsValue };

    ghost coded = { rows_code };

    ghost use Rattle.xod_model.specs.Entries.{rows_of};

    ghost view = { λ rows. rows_of rows.lists };

    ghost invariant = { λ rows. IsTrue (is_sound (rows_of rows.lists)) };
}

/// The lists after changes, each of which fits those after the ones before it.
fn changed(alloc: Global, lists: &Lists, changes: &[RowChange]) -> Result<Lists, Memory>
    requires fit { IsTrue (all_fit (rows_of lists.now) changes.now) }
    requires sound { IsTrue (is_sound (rows_of lists.now)) }
    ensures rows { IfOk result (λ after. rows_of after ≡ all_applied (rows_of lists.now) changes.now) }
    ensures sound { IfOk result (λ after. IsTrue (is_sound (rows_of after))) }
{
    changes_keep_sound();
    let mut after = lists.try_clone(alloc)?;
    for change in changes {
        after.apply(alloc, change)?;
    }
    Ok(after)
}

impl Rows {
    /// The rows of a store without contents.
    pub fn empty(alloc: Global) -> Rows
        ensures { result ≡ no_rows }
    {
        Rows {
            lists: Lists::empty(alloc),
        }
    }

    /// The same rows once more.
    pub fn try_clone(&self, alloc: Global) -> Result<Rows, Memory>
        ensures equal { IfOk result (λ rows. rows ≡ self.now) }
        ensures sound { IsTrue (is_sound self.now) }
    {
        Ok(Rows {
            lists: self.lists.try_clone(alloc)?,
        })
    }

    /// Rows are always sound.
    pub fn are_sound(&self)
        ensures { IsTrue (is_sound self.now) }
    {
        let _ = &self.lists;
    }

    /// The changes that an act makes, or the first reason to refuse it.
    pub fn expand(&self, alloc: Global, act: &Act) -> Result<ChangeList, StmtError>
        requires { IsTrue (has_names act.now) }
        ensures changes { IfOk result (λ changes. expansion_of self.now act.now ≡ Ok changes) }
        ensures refused { IfErr result (λ error. Refuses (expansion_of self.now act.now) error) }
        ensures fit { IfOk result (λ changes. IsTrue (all_fit self.now changes)) }
    {
        names_stay();
        expansions_fit();
        let changes = self.lists.expand(alloc, act)?;
        Ok(changes)
    }

    /// What is shown of an entity; the refusal where it is not there.
    pub fn show(&self, alloc: Global, id: EntityId) -> Result<Shown, StmtError>
        ensures shown { IfOk result (λ shown. shown_of self.now id ≡ Ok shown) }
        ensures refused { IfErr result (λ error. Refuses (shown_of self.now id) error) }
    {
        let shown = self.lists.show(alloc, id)?;
        Ok(shown)
    }

    /// Makes changes, each of which fits the rows after those before it. A refusal leaves the rows as they were.
    pub fn apply(&mut self, alloc: Global, changes: &ChangeList) -> Result<(), Memory>
        requires { IsTrue (all_fit self.old changes.now) }
        ensures { self.new ≡ (if is_ok result then all_applied self.old changes.now else self.old) }
    {
        if let [only] = changes.as_slice() {
            self.apply_one(alloc, only)?;
            return Ok(());
        }
        self.lists = changed(alloc, &self.lists, changes.as_slice())?;
        Ok(())
    }

    /// Makes a change that fits. A refusal leaves the rows as they were.
    fn apply_one(&mut self, alloc: Global, change: &RowChange) -> Result<(), Memory>
        requires { IsTrue (fits self.old change.now) }
        ensures { self.new ≡ (if is_ok result then applied self.old change.now else self.old) }
    {
        changes_keep_sound();
        self.lists.apply(alloc, change)?;
        Ok(())
    }
}

/// The ids that a query answers.
pub fn plain_eval(alloc: Global, query: &Query, rows: &Rows) -> Result<IdList, Memory>
    ensures { IfOk result (λ ids. ids ≡ answer_of query.now rows.now) }
{
    let ids = rows.lists.answer(alloc, query)?;
    Ok(ids)
}
