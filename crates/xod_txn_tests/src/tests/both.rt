//! The same acts, shows and queries on plain rows and on a transaction.
ghost use Rattle.std.specs.Prelude.{IsTrue};
ghost use Rattle.xod_journal.specs.Changes.{has_names};

use super::list::{FINDS, KINDS, SHOWN};
use super::says::{acted, all_of, find_of, shown};
use std::alloc::Global;
use xod_base::{Act, ActAnswer, EntityId, Memory, Query, Reply, StmtError, TreeView};
use xod_estxn::EntityTxn;
use xod_model::{Rows, answer_to, plain_eval};
use xod_print::answer_line;
use xod_trial::{Given, act_of, id_of};

/// Makes the changes of an act on rows.
fn plain_act(alloc: Global, rows: &mut Rows, act: &Act) -> Result<ActAnswer, StmtError>
    requires { IsTrue (has_names act.now) }
{
    let changes = rows.expand(alloc, act)?;
    let answer = answer_to(&changes);
    rows.apply(alloc, &changes)?;
    Ok(answer)
}

/// Whether two answers are printed alike.
fn alike(alloc: Global, plain: &Reply, told: &Reply) -> Result<bool, Memory> {
    let plain = answer_line(alloc, 1, plain)?;
    let told = answer_line(alloc, 1, told)?;
    Ok(plain.same(&told))
}

/// Whether both answer an act alike, and the transaction has touched keys exactly where it has changes.
pub(crate) fn act_alike<T: TreeView>(
    alloc: Global,
    rows: &mut Rows,
    txn: &mut EntityTxn<T>,
    act: &Act,
) -> Result<bool, Memory>
    requires { IsTrue (has_names act.now) }
{
    let plain = acted(plain_act(alloc, rows, act));
    let told = acted(txn.act(alloc, act));
    let is_empty = txn.changes().is_empty();
    Ok(alike(alloc, &plain, &told)? && txn.overlay().is_empty() == is_empty)
}

/// Whether both show an entity alike.
pub(crate) fn show_alike<T: TreeView>(
    alloc: Global,
    rows: &Rows,
    txn: &mut EntityTxn<T>,
    id: EntityId,
) -> Result<bool, Memory> {
    let plain = shown(rows.show(alloc, id));
    let told = shown(txn.show(alloc, id));
    alike(alloc, &plain, &told)
}

/// Whether both answer a query alike.
fn query_alike<T: TreeView>(
    alloc: Global,
    rows: &Rows,
    txn: &mut EntityTxn<T>,
    query: &Query,
) -> Result<bool, Memory> {
    let plain = plain_eval(alloc, query, rows)?;
    Ok(match txn.query(alloc, query) {
        Ok(answer) => answer.ids.same(&plain),
        Err(_) => false,
    })
}

/// Whether both show all entities alike, those included that are not there.
fn shows_alike<T: TreeView>(
    alloc: Global,
    rows: &Rows,
    txn: &mut EntityTxn<T>,
) -> Result<bool, Memory> {
    let (kinds, locals) = SHOWN;
    for kind in 0..kinds {
        for local in 0..locals {
            if !show_alike(alloc, rows, txn, id_of((kind, local)))? {
                return Ok(false);
            }
        }
    }
    Ok(true)
}

/// Whether both have the same entities of each type.
fn kinds_alike<T: TreeView>(
    alloc: Global,
    rows: &Rows,
    txn: &mut EntityTxn<T>,
    kinds: &[&str],
) -> Result<bool, Memory> {
    for kind in kinds {
        let query = all_of(alloc, kind)?;
        if !query_alike(alloc, rows, txn, &query)? {
            return Ok(false);
        }
    }
    Ok(true)
}

/// Whether both find the same entities.
fn finds_alike<T: TreeView>(
    alloc: Global,
    rows: &Rows,
    txn: &mut EntityTxn<T>,
    finds: &[(&str, &str, xod_trial::Datum)],
) -> Result<bool, Memory> {
    for find in finds {
        let query = find_of(alloc, *find)?;
        if !query_alike(alloc, rows, txn, &query)? {
            return Ok(false);
        }
    }
    Ok(true)
}

/// Whether both have the same contents, as far as shows and queries tell.
pub(crate) fn contents_alike<T: TreeView>(
    alloc: Global,
    rows: &Rows,
    txn: &mut EntityTxn<T>,
) -> Result<bool, Memory> {
    Ok(
        shows_alike(alloc, rows, txn)?
            && kinds_alike(alloc, rows, txn, KINDS)?
            && finds_alike(alloc, rows, txn, FINDS)?,
    )
}

/// The place of the first act behind which both differ.
pub(crate) fn first_unlike<T: TreeView>(
    alloc: Global,
    rows: &mut Rows,
    txn: &mut EntityTxn<T>,
    acts: &[Given],
) -> Result<Option<usize>, Memory> {
    for (place, given) in acts.iter().enumerate() {
        let act = act_of(alloc, *given)?;
        let alike = act_alike(alloc, rows, txn, &act)? && contents_alike(alloc, rows, txn)?;
        if !alike {
            return Ok(Some(place));
        }
    }
    Ok(None)
}
