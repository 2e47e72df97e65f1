//! Queries of one part or two, boxed.
//!
//! Each is made in a function of its own, so that no query by value stands on the stack of the recursion that calls it.
ghost use Rattle.std.specs.Prelude.{◌≡◌, IfOk};
ghost use Rattle.xod_base.specs.declared.query.Query.{roll-Query};
ghost use Rattle.xod_base.specs.declared.query.Query.TheOpen.{Minus, Skip, Sort, Take, Targets};

use sqlite_items::Boxed;
use std::alloc::Global;
use xod_base::{Direction, Memory, Query, Text};

/// The ids in the left part and not in the right one.
#[inline(never)]
pub fn minus(alloc: Global, left: Boxed<Query>, right: Boxed<Query>) -> Result<Boxed<Query>, Memory>
    ensures { IfOk result (λ query. query ≡ roll-Query (Minus left right)) }
{
    Ok(Boxed::new(alloc, Query::Minus { left, right })?)
}

/// The targets of links by a name of the ids in the part.
#[inline(never)]
pub fn targets(alloc: Global, link: &Text, of: Boxed<Query>) -> Result<Boxed<Query>, Memory>
    ensures { IfOk result (λ query. query ≡ roll-Query (Targets link.now of)) }
{
    let link = link.try_clone(alloc)?;
    Ok(Boxed::new(alloc, Query::Targets { link, of })?)
}

/// The ids of the part by a property.
#[inline(never)]
pub fn sort(
    alloc: Global,
    prop: &Text,
    direction: Direction,
    of: Boxed<Query>,
) -> Result<Boxed<Query>, Memory>
    ensures { IfOk result (λ query. query ≡ roll-Query (Sort prop.now direction of)) }
{
    let prop = prop.try_clone(alloc)?;
    Ok(Boxed::new(
        alloc,
        Query::Sort {
            prop,
            direction,
            of,
        },
    )?)
}

/// The part without its first ids.
#[inline(never)]
pub fn skip(alloc: Global, count: u32, of: Boxed<Query>) -> Result<Boxed<Query>, Memory>
    ensures { IfOk result (λ query. query ≡ roll-Query (Skip count of)) }
{
    Ok(Boxed::new(alloc, Query::Skip { count, of })?)
}

/// The first ids of the part.
#[inline(never)]
pub fn take(alloc: Global, count: u32, of: Boxed<Query>) -> Result<Boxed<Query>, Memory>
    ensures { IfOk result (λ query. query ≡ roll-Query (Take count of)) }
{
    Ok(Boxed::new(alloc, Query::Take { count, of })?)
}
