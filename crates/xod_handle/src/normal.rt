//! The normal form of a query, by its parts, and its text beside it.
//!
//! It goes down as deep as the query is nested; what a union or an intersection joins is gone over in loops, and no
//! text is printed twice.
ghost use Rattle.std.specs.Prelude.{◌≡◌, ◌++◌, ◌<◌, IfOk, OnOk, length};
ghost use Rattle.xod_handle.specs.Forms.{IsPut, form_of, joined_whole, normal_of, parts_of};

use crate::boxing::{minus, skip, sort, take, targets};
use crate::join::Join;
use crate::leaves::{put_find, put_prefix, put_range, put_same};
use crate::parts::push_joined;
use crate::printed::Printed;
use crate::words::{push_count, push_direction, push_name};
use sqlite_items::Boxed;
use std::alloc::Global;
use xod_base::{Bytes, Memory, Query};

/// The normal form of a query, with its text.
#[cycle(normal_form)]
pub fn normal_printed(alloc: Global, query: &Query) -> Result<Printed, Memory>
    ensures { IfOk result (λ printed. printed ≡ normal_of query.now) }
{
    let mut text = Bytes::new(alloc);
    let whole = put_normal(alloc, query, &mut text)?;
    Ok(Printed::new(whole, text))
}

/// Puts the parts of a query, as one that stands in a union or an intersection, at the end.
#[cycle(normal_form)]
fn push_parts(
    alloc: Global,
    join: Join,
    query: &Query,
    parts: &mut Vec<Printed>,
) -> Result<(), Memory>
    ensures items { OnOk result (parts.new.items ≡ parts.old.items ++ parts_of join query.now) }
    ensures some { OnOk result (0 < length parts.new.items) }
{
    match (join, query) {
        (Join::Either, Query::Union { left, right }) => {
            push_parts(alloc, join, left.get(), parts)?;
            push_parts(alloc, join, right.get(), parts)?;
            Ok(())
        }
        (Join::Both, Query::Intersect { left, right }) => {
            push_parts(alloc, join, left.get(), parts)?;
            push_parts(alloc, join, right.get(), parts)?;
            Ok(())
        }
        _ => {
            parts.push(normal_printed(alloc, query)?)?;
            Ok(())
        }
    }
}

/// The normal form of a union or an intersection of two queries, with its text put at the end.
#[cycle(normal_form)]
fn put_join(
    alloc: Global,
    join: Join,
    left: &Query,
    right: &Query,
    out: &mut Bytes,
) -> Result<Boxed<Query>, Memory>
    ensures { IfOk result
        (IsPut (joined_whole join (form_of left.now) (form_of right.now)) out.old out.new) }
{
    let mut parts = Vec::new(alloc);
    push_parts(alloc, join, left, &mut parts)?;
    push_parts(alloc, join, right, &mut parts)?;
    push_joined(alloc, join, parts, out)
}

/// The normal form of a query, with its text put at the end.
#[cycle(normal_form)]
fn put_normal(alloc: Global, query: &Query, out: &mut Bytes) -> Result<Boxed<Query>, Memory>
    ensures { IfOk result (IsPut (normal_of query.now) out.old out.new) }
{
    match query {
        Query::All { .. } => put_same(alloc, query, out),
        Query::Find { kind, prop, value } => put_find(alloc, kind, prop, value, out),
        Query::Range {
            kind,
            prop,
            low,
            high,
        } => put_range(alloc, kind, prop, low, high, out),
        Query::Prefix { kind, prop, text } => put_prefix(alloc, kind, prop, text, out),
        Query::With { .. } => put_same(alloc, query, out),
        Query::WithLink { .. } => put_same(alloc, query, out),
        Query::Linked { .. } => put_same(alloc, query, out),
        Query::LinksOf { .. } => put_same(alloc, query, out),
        Query::Union { left, right } => put_join(alloc, Join::Either, left.get(), right.get(), out),
        Query::Intersect { left, right } => put_join(
            alloc,
            Join::Both,
            left.get(),
            right.get(),
            out,
        ),
        Query::Minus { left, right } => {
            out.extend(b"minus ")?;
            let first = put_normal(alloc, left.get(), out)?;
            out.push(b' ')?;
            let second = put_normal(alloc, right.get(), out)?;
            let whole = minus(alloc, first, second)?;
            Ok(whole)
        }
        Query::Targets { link, of } => {
            push_name(out, b"targets ", link)?;
            let part = put_normal(alloc, of.get(), out)?;
            let whole = targets(alloc, link, part)?;
            Ok(whole)
        }
        Query::Sort {
            prop,
            direction,
            of,
        } => {
            push_name(out, b"sort ", prop)?;
            push_direction(out, *direction)?;
            let part = put_normal(alloc, of.get(), out)?;
            let whole = sort(alloc, prop, *direction, part)?;
            Ok(whole)
        }
        Query::Skip { count, of } => {
            push_count(alloc, out, b"skip ", *count)?;
            let part = put_normal(alloc, of.get(), out)?;
            let whole = skip(alloc, *count, part)?;
            Ok(whole)
        }
        Query::Take { count, of } => {
            push_count(alloc, out, b"take ", *count)?;
            let part = put_normal(alloc, of.get(), out)?;
            let whole = take(alloc, *count, part)?;
            Ok(whole)
        }
    }
}
