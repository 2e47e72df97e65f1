//! The parts of a union or an intersection: put in order, and written again.
ghost use Rattle.std.specs.Prelude.{◌≡◌, ◌<◌, ◌++◌, IfOk, OnOk, length};
ghost use Rattle.std.specs.List.{flat_map};
ghost use Rattle.xod_base.specs.declared.query.Query.{Query as QueryValue};
ghost use Rattle.xod_handle.specs.Forms.{IsPut, arranged, front_text, joined, onto, written};

use crate::join::Join;
use crate::printed::Printed;
use sqlite_items::Boxed;
use std::alloc::Global;
use std::cmp::Ordering;
use xod_base::{Bytes, Memory, Query};

/// Puts parts in rising order of their texts, and leaves out repeats.
fn arrange(parts: &mut Vec<Printed>) -> Result<(), Memory>
    ensures { OnOk result (parts.new.items ≡ arranged parts.old.items) }
{
    parts.sort_by(|a, b| a.cmp_text(b))?;
    parts.dedup_by(|later, first| later.cmp_text(first) == Ordering::Equal);
    Ok(())
}

/// Puts the text of a part that is not the last at the end.
fn push_front(join: Join, part: &Printed, out: &mut Bytes) -> Result<(), Memory>
    ensures { OnOk result (out.new ≡ out.old ++ front_text join part.now) }
{
    out.extend(join.word())?;
    out.extend(part.bytes())?;
    out.push(b' ')?;
    Ok(())
}

/// Puts the texts of the parts before the last at the end.
fn push_fronts(join: Join, parts: &[Printed], out: &mut Bytes) -> Result<(), Memory>
    ensures { OnOk result (out.new ≡ out.old ++ flat_map (front_text join) parts.now) }
{
    for part in parts {
        push_front(join, part, out)?;
    }
    Ok(())
}

/// The parts before a query, nested to the right with it as the last.
fn nested_onto(
    alloc: Global,
    join: Join,
    mut parts: Vec<Printed>,
    last: Boxed<Query>,
) -> Result<Boxed<Query>, Memory>
    ensures { IfOk result (λ query. query ≡ onto join parts.items last) }
{
    let mut whole = last;
    while let Some(part) = parts.pop() {
        whole = join.of(alloc, part.into_query(), whole)?;
    }
    Ok(whole)
}

/// A query of parts before a last one, with its text put at the end.
fn push_onto(
    alloc: Global,
    join: Join,
    parts: Vec<Printed>,
    last: Printed,
    out: &mut Bytes,
) -> Result<Boxed<Query>, Memory>
    ensures { IfOk result (IsPut (onto join parts.items last) out.old out.new) }
{
    push_fronts(join, &parts, out)?;
    out.extend(last.bytes())?;
    let whole = nested_onto(alloc, join, parts, last.into_query())?;
    Ok(whole)
}

/// A query of a part and itself, with its text put at the end.
fn push_twice(
    alloc: Global,
    join: Join,
    part: Printed,
    out: &mut Bytes,
) -> Result<Boxed<Query>, Memory>
    ensures { IfOk result (IsPut (joined join part part) out.old out.new) }
{
    push_front(join, &part, out)?;
    out.extend(part.bytes())?;
    let again = Boxed::new(alloc, part.query().try_clone(alloc)?)?;
    let whole = join.of(alloc, again, part.into_query())?;
    Ok(whole)
}

/// The query of parts that are in order, of which there is one at least, with its text put at the end.
fn push_written(
    alloc: Global,
    join: Join,
    mut parts: Vec<Printed>,
    out: &mut Bytes,
) -> Result<Boxed<Query>, Memory>
    requires some { 0 < length parts.items }
    ensures { (otherwise : QueryValue)
        → IfOk result (IsPut (written join otherwise parts.items) out.old out.new) }
{
    let Some(last) = parts.pop() else {
        unreachable!()
    };
    if parts.is_empty() {
        push_twice(alloc, join, last, out)
    } else {
        push_onto(alloc, join, parts, last, out)
    }
}

/// The union or the intersection of parts, of which there is one at least, with its text put at the end.
#[inline(never)]
pub fn push_joined(
    alloc: Global,
    join: Join,
    mut parts: Vec<Printed>,
    out: &mut Bytes,
) -> Result<Boxed<Query>, Memory>
    requires some { 0 < length parts.items }
    ensures { (otherwise : QueryValue)
        → IfOk result (IsPut (written join otherwise (arranged parts.items)) out.old out.new) }
{
    arrange(&mut parts)?;
    push_written(alloc, join, parts, out)
}
