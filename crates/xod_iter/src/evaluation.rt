//! Evaluation.
ghost use Rattle.xod_base.specs.Evaluation.{answer_of, targets_of as targets_in};
ghost use Rattle.xod_base.specs.Views.{CountsFaults, KeepsView};
ghost use Rattle.xod_reader.specs.Told.{ReadsRows};

use crate::links::{ids_with_link, targets_of_all};
use crate::sorting::sorted_by_prop;
use std::alloc::Global;
use xod_base::{EntityId, IdList, Query, ReadError, Text, TreeView};
use xod_forms::{in_both, in_either, in_first, skipped, taken};
use xod_reader::{ids_found, ids_having, ids_linked, ids_of, ids_with_front, ids_within};

/// The targets of an entity's links by a name, rising.
fn targets_of<T: TreeView>(
    view: &mut T,
    alloc: Global,
    source: EntityId,
    link: &Text,
) -> Result<IdList, ReadError>
    ensures reads { ReadsRows (T.tells view.old) (T.trees view.old) (λ rows. targets_in rows link.now source) result }
    ensures counts { CountsFaults (T.faults view.old) (T.faults view.new) result }
    ensures keeps { KeepsView T.tells T.trees T.commit T.refs T.faults view.old view.new }
{
    let (_, targets) = xod_reader::targets_of(view, alloc, source, link)?;
    Ok(targets)
}

/// The ids that a query names: each once, and rising but for `sort`, `skip` and `take`.
pub fn evaluate<T: TreeView>(
    alloc: Global,
    query: &Query,
    view: &mut T,
) -> Result<IdList, ReadError>
    ensures reads { ReadsRows (T.tells view.old) (T.trees view.old) (λ rows. answer_of query.now rows) result }
    ensures counts { CountsFaults (T.faults view.old) (T.faults view.new) result }
    ensures keeps { KeepsView T.tells T.trees T.commit T.refs T.faults view.old view.new }
{
    match query {
        Query::All { kind } => ids_of(view, alloc, kind),
        Query::Find { kind, prop, value } => ids_found(view, alloc, kind, prop, value),
        Query::Range {
            kind,
            prop,
            low,
            high,
        } => ids_within(view, alloc, kind, prop, low, high),
        Query::Prefix { kind, prop, text } => ids_with_front(view, alloc, kind, prop, text),
        Query::With { kind, prop } => ids_having(view, alloc, kind, prop),
        Query::WithLink { kind, link } => ids_with_link(view, alloc, kind, link),
        Query::Linked { kind, link, target } => ids_linked(view, alloc, kind, link, *target),
        Query::LinksOf { source, link } => targets_of(view, alloc, *source, link),
        Query::Union { left, right } => {
            let left = evaluate(alloc, left.get(), view)?;
            let right = evaluate(alloc, right.get(), view)?;
            Ok(in_either(alloc, left, right)?)
        }
        Query::Intersect { left, right } => {
            let left = evaluate(alloc, left.get(), view)?;
            let right = evaluate(alloc, right.get(), view)?;
            Ok(in_both(alloc, left, right)?)
        }
        Query::Minus { left, right } => {
            let left = evaluate(alloc, left.get(), view)?;
            let right = evaluate(alloc, right.get(), view)?;
            Ok(in_first(alloc, left, right)?)
        }
        Query::Targets { link, of } => {
            let ids = evaluate(alloc, of.get(), view)?;
            targets_of_all(view, alloc, link, &ids)
        }
        Query::Sort {
            prop,
            direction,
            of,
        } => {
            let ids = evaluate(alloc, of.get(), view)?;
            sorted_by_prop(view, alloc, prop, *direction, &ids)
        }
        Query::Skip { count, of } => {
            let ids = evaluate(alloc, of.get(), view)?;
            Ok(skipped(alloc, *count, &ids)?)
        }
        Query::Take { count, of } => {
            let ids = evaluate(alloc, of.get(), view)?;
            Ok(taken(*count, ids))
        }
    }
}
