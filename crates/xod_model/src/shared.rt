//! Rows that several transactions have together.
//!
//! Sharing them copies nothing. Whoever changes rows that others have too changes a copy of its own.
ghost use Rattle.std.specs.Prelude.{◌≡◌, IsTrue, IfOk, is_ok, if◌then◌else◌};
ghost use Rattle.xod_base.specs.Rows.{is_sound};
ghost use Rattle.xod_journal.specs.Changes.{all_applied, all_fit};

use crate::rows::Rows;
use std::alloc::Global;
use std::marker::Model;
use std::sync::Arc;
use xod_base::Memory;
use xod_journal::ChangeList;

/// Rows that others may have too.
#[derive(Drop)]
pub struct SharedRows {
    rows: Arc<Rows>,
}

impl Model for SharedRows {
    ghost use Rattle.std.specs.Arc.{arc_value};
    ghost use Rattle.xod_base.specs.Rows.{RowsValue, rows_code};

    ghost Value = { RowsValue };

    ghost coded = { rows_code };

    ghost view = { λ shared. arc_value shared.rows };
}

/// A copy of rows with changes made.
fn changed(alloc: Global, rows: &Rows, changes: &ChangeList) -> Result<Rows, Memory>
    requires { IsTrue (all_fit rows.now changes.now) }
    ensures { IfOk result (λ copied. copied ≡ all_applied rows.now changes.now) }
{
    let mut copied = rows.try_clone(alloc)?;
    copied.apply(alloc, changes)?;
    Ok(copied)
}

impl SharedRows {
    /// Rows that nobody else has yet.
    pub fn new(alloc: Global, rows: Rows) -> Result<Self, Memory>
        ensures { IfOk result (λ shared. shared ≡ rows) }
    {
        Ok(SharedRows {
            rows: Arc::new(alloc, rows)?,
        })
    }

    /// The same rows for somebody else. Nothing is copied.
    pub fn share(&self) -> Result<Self, Memory>
        ensures { IfOk result (λ shared. shared ≡ self.now) }
    {
        Ok(SharedRows {
            rows: Arc::try_clone(&self.rows)?,
        })
    }

    /// The rows.
    pub fn as_rows(&self) -> &Rows
        ensures { result.now ≡ self.now }
    {
        &self.rows
    }

    /// Makes changes, each of which fits the rows after those before it. Who else has the rows keeps them as they were,
    /// and so does everyone after a refusal.
    pub fn change(&mut self, alloc: Global, changes: &ChangeList) -> Result<(), Memory>
        requires { IsTrue (all_fit self.old changes.now) }
        ensures { self.new ≡ (if is_ok result then all_applied self.old changes.now else self.old) }
    {
        if changes.is_empty() {
            return Ok(());
        }
        match Arc::get_mut(&mut self.rows) {
            Some(rows) => rows.apply(alloc, changes)?,
            None => {
                let rows = changed(alloc, &self.rows, changes)?;
                self.rows = Arc::new(alloc, rows)?;
            }
        }
        Ok(())
    }
}
