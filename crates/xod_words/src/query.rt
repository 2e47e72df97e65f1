//! Queries and their parts, and which of their entity words are variables.
//!
//! A query is read by its nesting: each part one level lower, and none below the last. The rules stand in
//! `specs/Queries.antt`.
ghost use Rattle.std.specs.Prelude.{◌≡◌, ◌≤◌, ◌++◌, ◌∷◌, [], IfOk, IfSome, IsTrue, OnOk, length};
ghost use Rattle.xod_base.specs.Queries.{is_named, is_within_limits};
ghost use Rattle.xod_words.specs.Drafts.{is_draft};
ghost use Rattle.xod_words.specs.Queries.{draft_of, joined, joined_query, part_at, query_above, query_of, vars_from};
ghost use Rattle.xod_words.specs.Reads.{Reads, ReadsOn};
ghost use Rattle.xod_words.specs.Words.{words_of};

use crate::draft::{Draft, Ent, VarList, VarUse};
use crate::front::{ReadOn, read_front};
use crate::part::{Above, EntList, Front, Join, Part};
use crate::words::{Unread, no_word};
use sqlite_items::Boxed;
use std::alloc::Global;
use xod_base::{DEEPEST_QUERY, MOST_PARTS, Memory, Query};

/// The query of two parts.
fn joined_query(alloc: Global, join: Join, left: Query, right: Query) -> Result<Query, Memory>
    ensures { IfOk result (λ query. query ≡ joined_query join left right) }
{
    let left = Boxed::new(alloc, left)?;
    let right = Boxed::new(alloc, right)?;
    match join {
        Join::Union => Ok(Query::Union { left, right }),
        Join::Intersect => Ok(Query::Intersect { left, right }),
        Join::Minus => Ok(Query::Minus { left, right }),
    }
}

/// Two parts as one, where they are not too many.
#[tactic(auto, unfolding(crate::specs::Queries::joined))]
fn joined(alloc: Global, join: Join, left: Part, right: Part) -> Result<Part, Unread>
    ensures { Reads result (joined join left right) }
{
    let leaves = left.leaves.saturating_add(right.leaves);
    if leaves > MOST_PARTS {
        return Err(Unread::Bad);
    }
    let query = joined_query(alloc, join, left.query, right.query)?;
    let mut ents = left.ents;
    ents.append(right.ents)?;
    Ok(Part {
        query,
        ents,
        leaves,
    })
}

/// The query of one part and what stands before it.
fn query_above(alloc: Global, above: Above, of: Query) -> Result<Query, Memory>
    ensures { IfOk result (λ query. query ≡ query_above above of) }
{
    let of = Boxed::new(alloc, of)?;
    match above {
        Above::Targets { link } => Ok(Query::Targets { link, of }),
        Above::Sort { prop, direction } => Ok(Query::Sort {
            prop,
            direction,
            of,
        }),
        Above::Skip { count } => Ok(Query::Skip { count, of }),
        Above::Take { count } => Ok(Query::Take { count, of }),
    }
}

/// A query that is nested no deeper than this, and what follows it.
#[tactic(auto, unfolding(crate::specs::Queries::part_at))]
fn read_part(alloc: Global, depth: usize, line: &[u8]) -> ReadOn<'_, Part>
    ensures { ReadsOn result (part_at depth (words_of line.now)) }
{
    let Some(below) = depth.checked_sub(1) else {
        return Err(Unread::Bad);
    };
    let (front, rest) = read_front(alloc, line)?;
    match front {
        Front::Leaf(part) => Ok((part, rest)),
        Front::Joining(join) => {
            let (left, rest) = read_part(alloc, below, rest)?;
            let (right, rest) = read_part(alloc, below, rest)?;
            let part = joined(alloc, join, left, right)?;
            Ok((part, rest))
        }
        Front::Over(above) => {
            let (of, rest) = read_part(alloc, below, rest)?;
            let Part {
                query,
                ents,
                leaves,
            } = of;
            let query = query_above(alloc, above, query)?;
            Ok((
                Part {
                    query,
                    ents,
                    leaves,
                },
                rest,
            ))
        }
    }
}

/// Puts the entity word with a number at the end, where it is a variable.
fn push_variable(vars: &mut VarList, place: u32, ent: Ent) -> Result<(), Memory>
    ensures { OnOk result (vars.new ≡ vars.old ++ vars_from place (ent ∷ [])) }
{
    match ent {
        Ent::Id(_) => Ok(()),
        Ent::Var(var) => {
            vars.push(VarUse { place, var })?;
            Ok(())
        }
    }
}

/// The variables among entity words, with the numbers of these words.
fn numbered(alloc: Global, ents: EntList) -> Result<VarList, Memory>
    requires { length ents ≤ MOST_PARTS }
    ensures { IfOk result (λ vars. vars ≡ vars_from 0 ents) }
{
    let mut vars = VarList::new(alloc);
    let mut place = 0;
    for ent in ents.into_vec() {
        push_variable(&mut vars, place, ent)?;
        place += 1;
    }
    Ok(vars)
}

/// The query of a line, whose entity words may be variables.
#[tactic(auto, unfolding(crate::specs::Queries::draft_of))]
pub fn read_draft(alloc: Global, line: &[u8]) -> Result<Draft, Unread>
    ensures exactly { Reads result (draft_of (words_of line.now)) }
    ensures well_formed { IfOk result (λ draft. IsTrue (is_draft draft)) }
{
    let (part, rest) = read_part(alloc, DEEPEST_QUERY, line)?;
    no_word(rest)?;
    let vars = numbered(alloc, part.ents)?;
    Ok(Draft {
        query: part.query,
        vars,
    })
}

/// The query that bytes are, with ids alone, and `None` exactly where they are none.
#[tactic(auto, unfolding(crate::specs::Queries::query_of))]
pub fn read_query(alloc: Global, bytes: &[u8]) -> Result<Option<Query>, Memory>
    ensures exactly { IfOk result (λ found. found ≡ query_of bytes.now) }
    ensures well_formed { IfOk result (λ found. IfSome found (λ query.
        IsTrue (is_named query) × IsTrue (is_within_limits query))) }
{
    match read_draft(alloc, bytes) {
        Ok(draft) if draft.vars.is_empty() => Ok(Some(draft.query)),
        Ok(_) => Ok(None),
        Err(Unread::Bad) => Ok(None),
        Err(Unread::Memory) => Err(Memory),
    }
}
