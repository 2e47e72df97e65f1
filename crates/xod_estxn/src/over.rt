//! Calls over a view with touched keys over it.
//!
//! Each stands twice: the one says of the view what an overlay over it shows, and the other, which lends it as a `Kept`,
//! that it has its trees afterwards too.
ghost use Rattle.std.specs.Prelude.{◌≡◌, IsTrue};
ghost use Rattle.xod_base.specs.Evaluation.{answer_of};
ghost use Rattle.xod_base.specs.Rows.{RowsValue};
ghost use Rattle.xod_base.specs.Views.{CountsFaults as CountsReads, KeepsView};
ghost use Rattle.xod_acts.specs.Plans.{Plans};
ghost use Rattle.xod_journal.specs.Changes.{expansion_of, has_names};
ghost use Rattle.xod_journal.specs.Locals.{CountsFaults, IsExpected};
ghost use Rattle.xod_journal.specs.Shows.{shown_of};
ghost use Rattle.xod_overlay.specs.Marks.{overlaid_trees, touched};
ghost use Rattle.xod_reader.specs.Told.{ReadsRows};
ghost use Rattle.xod_tables.specs.Tables.{AreTables};
ghost use Rattle.xod_estxn.specs.Keeping.{KeepsLent};

use crate::kept::{Holding, Kept};
use crate::show::show;
use std::alloc::Global;
use std::marker::PhantomData;
use xod_acts::{Plan, expand};
use xod_base::{Act, EntityId, IdList, Query, ReadError, Shown, StmtError, TreeView};
use xod_iter::evaluate;
use xod_overlay::{Overlaid, Overlay};

/// What an act changes and writes, or the first reason to refuse it.
fn expand_seen<T: TreeView>(
    view: &mut T,
    own: &Overlay,
    alloc: Global,
    act: &Act,
) -> Result<Plan, StmtError>
    requires { IsTrue (has_names act.now) }
    ensures plans { Plans (T.tells view.old) (overlaid_trees (touched own.now) (T.trees view.old)) (λ rows. expansion_of rows act.now) result }
    ensures counts { CountsFaults (T.faults view.old) (T.faults view.new) result }
    ensures keeps { KeepsLent T.tells T.commit T.refs T.faults view.old view.new }
{
    let mut seen = Overlaid {
        overlay: own,
        below: view,
    };
    expand(&mut seen, alloc, act)
}

/// What an act changes and writes, or the first reason to refuse it. The view has its trees afterwards too.
pub(crate) fn expand_over<T: TreeView, H: Holding>(
    view: &mut T,
    own: &Overlay,
    alloc: Global,
    act: &Act,
) -> Result<Plan, StmtError>
    requires names { IsTrue (has_names act.now) }
    requires trees_are { T.trees view.old ≡ H.trees }
    ensures plans { Plans (T.tells view.old) (overlaid_trees (touched own.now) (T.trees view.old)) (λ rows. expansion_of rows act.now) result }
    ensures counts { CountsFaults (T.faults view.old) (T.faults view.new) result }
    ensures keeps { KeepsView T.tells T.trees T.commit T.refs T.faults view.old view.new }
{
    let mut kept = Kept::<'_, T, H> {
        view,
        trees: PhantomData,
    };
    expand_seen(&mut kept, own, alloc, act)
}

/// What belongs to an entity, or the refusal where it is not there.
fn show_seen<T: TreeView>(
    view: &mut T,
    own: &Overlay,
    alloc: Global,
    id: EntityId,
) -> Result<Shown, StmtError>
    ensures shows { IsTrue (T.tells view.old) → (rows : RowsValue) → AreTables (overlaid_trees (touched own.now) (T.trees view.old)) rows
        → IsExpected (shown_of rows id) result }
    ensures counts { CountsFaults (T.faults view.old) (T.faults view.new) result }
    ensures keeps { KeepsLent T.tells T.commit T.refs T.faults view.old view.new }
{
    let mut seen = Overlaid {
        overlay: own,
        below: view,
    };
    show(&mut seen, alloc, id)
}

/// What belongs to an entity, or the refusal where it is not there. The view has its trees afterwards too.
pub(crate) fn show_over<T: TreeView, H: Holding>(
    view: &mut T,
    own: &Overlay,
    alloc: Global,
    id: EntityId,
) -> Result<Shown, StmtError>
    requires { T.trees view.old ≡ H.trees }
    ensures shows { IsTrue (T.tells view.old) → (rows : RowsValue) → AreTables (overlaid_trees (touched own.now) (T.trees view.old)) rows
        → IsExpected (shown_of rows id) result }
    ensures counts { CountsFaults (T.faults view.old) (T.faults view.new) result }
    ensures keeps { KeepsView T.tells T.trees T.commit T.refs T.faults view.old view.new }
{
    let mut kept = Kept::<'_, T, H> {
        view,
        trees: PhantomData,
    };
    show_seen(&mut kept, own, alloc, id)
}

/// The ids that a query names.
fn evaluate_seen<T: TreeView>(
    view: &mut T,
    own: &Overlay,
    alloc: Global,
    query: &Query,
) -> Result<IdList, ReadError>
    ensures reads { ReadsRows (T.tells view.old) (overlaid_trees (touched own.now) (T.trees view.old)) (λ rows. answer_of query.now rows) result }
    ensures counts { CountsReads (T.faults view.old) (T.faults view.new) result }
    ensures keeps { KeepsLent T.tells T.commit T.refs T.faults view.old view.new }
{
    let mut seen = Overlaid {
        overlay: own,
        below: view,
    };
    evaluate(alloc, query, &mut seen)
}

/// The ids that a query names. The view has its trees afterwards too.
pub(crate) fn evaluate_over<T: TreeView, H: Holding>(
    view: &mut T,
    own: &Overlay,
    alloc: Global,
    query: &Query,
) -> Result<IdList, ReadError>
    requires { T.trees view.old ≡ H.trees }
    ensures reads { ReadsRows (T.tells view.old) (overlaid_trees (touched own.now) (T.trees view.old)) (λ rows. answer_of query.now rows) result }
    ensures counts { CountsReads (T.faults view.old) (T.faults view.new) result }
    ensures keeps { KeepsView T.tells T.trees T.commit T.refs T.faults view.old view.new }
{
    let mut kept = Kept::<'_, T, H> {
        view,
        trees: PhantomData,
    };
    evaluate_seen(&mut kept, own, alloc, query)
}
