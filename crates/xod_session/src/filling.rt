//! The ids of variables in the places of a query's entity words.
//!
//! The words are numbered from 0, left to right. The rule stands in `specs/Variables.antt`.
ghost use Rattle.std.specs.Prelude.{◌≡◌, IfOk, IsTrue};
ghost use Rattle.xod_base.specs.Queries.{is_id, is_named};
ghost use Rattle.xod_session.specs.Fillings.{filling_of};
ghost use Rattle.xod_session.specs.Variables.{filled as filled_with, filled_from as filled_in, ids_for as ids_of, word_filled};

use crate::variables::Variables;
use sqlite_items::Boxed;
use std::alloc::Global;
use xod_base::{EntityId, Memory, Query};
use xod_lang::{Draft, VarUse};

/// The id that stands where there is none.
pub const NO_ID: EntityId = EntityId { kind: 0, local: 0 };

/// A walk over the entity words of a query: the number of the next word, and the ids of the variables still to come,
/// each with the number of its word.
#[derive(Drop)]
pub struct Words<'a> {
    pub next: u32,
    pub left: &'a [(u32, EntityId)],
}

/// An id, whose numbers have 32 bits.
fn known_id(id: EntityId) -> EntityId
    ensures same { result ≡ id }
    ensures id { IsTrue (is_id result) }
{
    id
}

/// The next word: a variable's id, or its own.
fn filled_word(words: &mut Words<'_>, id: EntityId) -> Result<EntityId, Memory>
    ensures filled { IfOk result (λ filled. (filled, filling_of words.new) ≡ word_filled id (filling_of words.old)) }
    ensures id { IsTrue (is_id id) → IfOk result (λ filled. IsTrue (is_id filled)) }
{
    let number = words.next;
    let Some(next) = number.checked_add(1) else {
        return Err(Memory);
    };
    words.next = next;
    let Some((first, more)) = words.left.split_first() else {
        return Ok(id);
    };
    if first.0 != number {
        return Ok(id);
    }
    words.left = more;
    Ok(known_id(first.1))
}

/// A part of a query, boxed once more.
#[cycle(filled)]
fn filled_part(
    alloc: Global,
    part: &Boxed<Query>,
    words: &mut Words<'_>,
) -> Result<Boxed<Query>, Memory>
    ensures filled { IfOk result (λ made. (made, filling_of words.new) ≡ filled_in (filling_of words.old) part.now) }
    ensures named { IsTrue (is_named part.now) → IfOk result (λ made. IsTrue (is_named made)) }
{
    let made = filled_from(alloc, part.get(), words)?;
    Ok(Boxed::new(alloc, made)?)
}

/// A query with the ids of its variables in their places.
#[cycle(filled)]
fn filled_from(alloc: Global, query: &Query, words: &mut Words<'_>) -> Result<Query, Memory>
    ensures filled { IfOk result (λ made. (made, filling_of words.new) ≡ filled_in (filling_of words.old) query.now) }
    ensures named { IsTrue (is_named query.now) → IfOk result (λ made. IsTrue (is_named made)) }
{
    match query {
        Query::Linked { kind, link, target } => Ok(Query::Linked {
            kind: kind.try_clone(alloc)?,
            link: link.try_clone(alloc)?,
            target: filled_word(words, *target)?,
        }),
        Query::LinksOf { source, link } => Ok(Query::LinksOf {
            source: filled_word(words, *source)?,
            link: link.try_clone(alloc)?,
        }),
        Query::Union { left, right } => Ok(Query::Union {
            left: filled_part(alloc, left, words)?,
            right: filled_part(alloc, right, words)?,
        }),
        Query::Intersect { left, right } => Ok(Query::Intersect {
            left: filled_part(alloc, left, words)?,
            right: filled_part(alloc, right, words)?,
        }),
        Query::Minus { left, right } => Ok(Query::Minus {
            left: filled_part(alloc, left, words)?,
            right: filled_part(alloc, right, words)?,
        }),
        Query::Targets { link, of } => Ok(Query::Targets {
            link: link.try_clone(alloc)?,
            of: filled_part(alloc, of, words)?,
        }),
        Query::Sort {
            prop,
            direction,
            of,
        } => Ok(Query::Sort {
            prop: prop.try_clone(alloc)?,
            direction: *direction,
            of: filled_part(alloc, of, words)?,
        }),
        Query::Skip { count, of } => Ok(Query::Skip {
            count: *count,
            of: filled_part(alloc, of, words)?,
        }),
        Query::Take { count, of } => Ok(Query::Take {
            count: *count,
            of: filled_part(alloc, of, words)?,
        }),
        leaf => Ok(leaf.try_clone(alloc)?),
    }
}

/// The ids of a query's variables, each with the number of its word.
fn ids_for(
    alloc: Global,
    variables: &Variables,
    uses: &[VarUse],
) -> Result<Vec<(u32, EntityId)>, Memory>
    ensures { IfOk result (λ ids. ids.items ≡ ids_of variables.now uses.now) }
{
    let mut ids = Vec::new(alloc);
    for one in uses {
        let id = variables.get(&one.var).unwrap_or(NO_ID);
        ids.push((one.place, id))?;
    }
    Ok(ids)
}

/// A draft with the ids of its variables in their places.
pub fn filled(alloc: Global, variables: &Variables, draft: &Draft) -> Result<Query, Memory>
    ensures filled { IfOk result (λ made. made ≡ filled_with variables.now draft.now) }
    ensures named { IsTrue (is_named draft.now.query) → IfOk result (λ made. IsTrue (is_named made)) }
{
    let ids = ids_for(alloc, variables, draft.vars.as_slice())?;
    let mut words = Words {
        next: 0,
        left: ids.as_slice(),
    };
    filled_from(alloc, &draft.query, &mut words)
}
