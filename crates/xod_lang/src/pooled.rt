//! Queries whose names are those of a pool.
//!
//! A box gives its value to read alone, so a query is made once more, from its parts up, with a pool's texts in it.
ghost use Rattle.std.specs.Prelude.{◌≡◌, IfOk};

use crate::pool::Pool;
use sqlite_items::Boxed;
use std::alloc::Global;
use xod_base::{Memory, Query};
use xod_words::{Draft, VarList, VarUse};

/// A query without parts.
fn pooled_leaf(alloc: Global, pool: &mut Pool, query: &Query) -> Result<Query, Memory>
    ensures { IfOk result (λ pooled. pooled ≡ query.now) }
{
    let mut pooled = query.try_clone(alloc)?;
    pool.share_leaf(alloc, &mut pooled);
    Ok(pooled)
}

/// A part of a query, boxed once more.
#[cycle(pooled)]
fn pooled_part(alloc: Global, pool: &mut Pool, part: &Boxed<Query>) -> Result<Boxed<Query>, Memory>
    ensures { IfOk result (λ pooled. pooled ≡ part.now) }
{
    let pooled = pooled_query(alloc, pool, part.get())?;
    Ok(Boxed::new(alloc, pooled)?)
}

/// The same query, with the texts of a pool.
#[cycle(pooled)]
fn pooled_query(alloc: Global, pool: &mut Pool, query: &Query) -> Result<Query, Memory>
    ensures { IfOk result (λ pooled. pooled ≡ query.now) }
{
    match query {
        Query::Union { left, right } => Ok(Query::Union {
            left: pooled_part(alloc, pool, left)?,
            right: pooled_part(alloc, pool, right)?,
        }),
        Query::Intersect { left, right } => Ok(Query::Intersect {
            left: pooled_part(alloc, pool, left)?,
            right: pooled_part(alloc, pool, right)?,
        }),
        Query::Minus { left, right } => Ok(Query::Minus {
            left: pooled_part(alloc, pool, left)?,
            right: pooled_part(alloc, pool, right)?,
        }),
        Query::Targets { link, of } => Ok(Query::Targets {
            link: pool.shared(alloc, link)?,
            of: pooled_part(alloc, pool, of)?,
        }),
        Query::Sort {
            prop,
            direction,
            of,
        } => Ok(Query::Sort {
            prop: pool.shared(alloc, prop)?,
            direction: *direction,
            of: pooled_part(alloc, pool, of)?,
        }),
        Query::Skip { count, of } => Ok(Query::Skip {
            count: *count,
            of: pooled_part(alloc, pool, of)?,
        }),
        Query::Take { count, of } => Ok(Query::Take {
            count: *count,
            of: pooled_part(alloc, pool, of)?,
        }),
        leaf => pooled_leaf(alloc, pool, leaf),
    }
}

/// The same variables, with the texts of a pool.
fn pooled_vars(alloc: Global, pool: &mut Pool, uses: &[VarUse]) -> Result<VarList, Memory>
    ensures { IfOk result (λ pooled. pooled ≡ uses.now) }
{
    let mut pooled = VarList::new(alloc);
    for one in uses {
        let var = pool.shared(alloc, &one.var)?;
        pooled.push(VarUse {
            place: one.place,
            var,
        })?;
    }
    Ok(pooled)
}

/// The same draft, with the texts of a pool.
pub fn pooled_draft(alloc: Global, pool: &mut Pool, draft: &Draft) -> Result<Boxed<Draft>, Memory>
    ensures { IfOk result (λ pooled. pooled ≡ draft.now) }
{
    let query = pooled_query(alloc, pool, &draft.query)?;
    let vars = pooled_vars(alloc, pool, draft.vars.as_slice())?;
    Ok(Boxed::new(alloc, Draft { query, vars })?)
}
