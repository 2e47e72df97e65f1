//! Queries without parts in normal form, with their texts: values and prefixes are folded.
ghost use Rattle.std.specs.Prelude.{◌≡◌, IfOk};
ghost use Rattle.xod_base.specs.declared.query.Query.{roll-Query};
ghost use Rattle.xod_base.specs.declared.query.Query.TheOpen.{Find, Prefix, Range};
ghost use Rattle.xod_base.specs.Values.{folded};
ghost use Rattle.xod_handle.specs.Forms.{IsPut, folded_value as value_folded};

use crate::folding::{folded_text, folded_value};
use sqlite_items::Boxed;
use std::alloc::Global;
use xod_base::{Bytes, Memory, Query, Text, Value, print_query};

/// A query, boxed, with its text put at the end.
fn put(alloc: Global, query: Query, out: &mut Bytes) -> Result<Boxed<Query>, Memory>
    ensures { IfOk result (IsPut query out.old out.new) }
{
    print_query(alloc, out, &query)?;
    let boxed = Boxed::new(alloc, query)?;
    Ok(boxed)
}

/// The same query, with its text put at the end.
#[inline(never)]
pub fn put_same(alloc: Global, query: &Query, out: &mut Bytes) -> Result<Boxed<Query>, Memory>
    ensures { IfOk result (IsPut query.now out.old out.new) }
{
    put(alloc, query.try_clone(alloc)?, out)
}

/// Those of a type whose property has the key of a value, with the text put at the end.
#[inline(never)]
pub fn put_find(
    alloc: Global,
    kind: &Text,
    prop: &Text,
    value: &Value,
    out: &mut Bytes,
) -> Result<Boxed<Query>, Memory>
    ensures { IfOk result
        (IsPut (roll-Query (Find kind.now prop.now (value_folded value.now))) out.old out.new) }
{
    let find = Query::Find {
        kind: kind.try_clone(alloc)?,
        prop: prop.try_clone(alloc)?,
        value: folded_value(alloc, value)?,
    };
    put(alloc, find, out)
}

/// Those of a type whose property has a key between two, with the text put at the end.
#[inline(never)]
pub fn put_range(
    alloc: Global,
    kind: &Text,
    prop: &Text,
    low: &Value,
    high: &Value,
    out: &mut Bytes,
) -> Result<Boxed<Query>, Memory>
    ensures { IfOk result (IsPut
        (roll-Query (Range kind.now prop.now (value_folded low.now) (value_folded high.now)))
        out.old out.new) }
{
    let range = Query::Range {
        kind: kind.try_clone(alloc)?,
        prop: prop.try_clone(alloc)?,
        low: folded_value(alloc, low)?,
        high: folded_value(alloc, high)?,
    };
    put(alloc, range, out)
}

/// Those of a type whose property begins with a text, with the text of the query put at the end.
#[inline(never)]
pub fn put_prefix(
    alloc: Global,
    kind: &Text,
    prop: &Text,
    text: &Text,
    out: &mut Bytes,
) -> Result<Boxed<Query>, Memory>
    ensures { IfOk result
        (IsPut (roll-Query (Prefix kind.now prop.now (folded text.now))) out.old out.new) }
{
    let prefix = Query::Prefix {
        kind: kind.try_clone(alloc)?,
        prop: prop.try_clone(alloc)?,
        text: folded_text(alloc, text)?,
    };
    put(alloc, prefix, out)
}
