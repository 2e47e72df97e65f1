//! Ids in the order of their keys.
//!
//! The caller hands each id in with its key, which it looked up once. The order stands in `xod_base`, in
//! `specs/Evaluation.antt`.
ghost use Rattle.std.specs.Prelude.{◌≡◌, IfOk, List, map, ℕ};
ghost use Rattle.std.specs.List.Sorted.{IsPermutation, IsSorted};
ghost use Rattle.xod_base.specs.Evaluation.{key_cmp, sort_cmp, sorted_by};
ghost use Rattle.xod_base.specs.Rows.{RowsValue};
ghost use Rattle.xod_base.specs.declared.value.EntityId.{EntityId as AnId};
ghost use Rattle.xod_forms.specs.Ranks.{rank_cmp, rank_of};

use std::alloc::Global;
use std::cmp::Ordering;
use xod_base::{Bytes, Direction, EntityId, IdList, Memory};

/// An id with the key that it is sorted by, which it may not have.
#[derive(Drop)]
pub struct Ranked {
    pub key: Option<Bytes>,
    pub id: EntityId,
}

/// How keys are to one another: what has none comes last.
fn key_order(direction: Direction, key: &Option<Bytes>, other: &Option<Bytes>) -> Ordering
    ensures { result ≡ key_cmp direction key.now other.now }
{
    match (key, other) {
        (None, None) => Ordering::Equal,
        (None, Some(_)) => Ordering::Greater,
        (Some(_), None) => Ordering::Less,
        (Some(key), Some(other)) => match direction {
            Direction::Up => key.as_slice().cmp(other.as_slice()),
            Direction::Down => other.as_slice().cmp(key.as_slice()),
        },
    }
}

/// How ids with their keys are to one another.
fn rank_order(direction: Direction, ranked: &Ranked, other: &Ranked) -> Ordering
    ensures { result ≡ rank_cmp direction ranked.now other.now }
{
    key_order(direction, &ranked.key, &other.key).then(ranked.id.cmp(&other.id))
}

/// Ids with their keys, sorted.
fn sorted_ranks(direction: Direction, mut ranked: Vec<Ranked>) -> Vec<Ranked>
    ensures moved { IsPermutation ranked.items result.items }
    ensures sorted { IsSorted (rank_cmp direction) result.items }
{
    ranked.sort_unstable_by(|a, b| rank_order(direction, a, b));
    ranked
}

/// The ids alone.
fn without_keys(alloc: Global, ranked: &[Ranked]) -> Result<IdList, Memory>
    ensures { IfOk result (λ ids. ids ≡ map (λ rank. rank.id) ranked.now) }
{
    let mut ids = IdList::new(alloc);
    for rank in ranked {
        ids.push(rank.id)?;
    }
    Ok(ids)
}

/// Ids with their keys as a query sorts them: lower keys first, or higher ones; equal keys by rising id, ids without a
/// key last.
pub fn sorted(alloc: Global, direction: Direction, ranked: Vec<Ranked>) -> Result<IdList, Memory>
    ensures { IfOk result (λ sorted. (rows : RowsValue) (prop : List ℕ) (ids : List AnId)
        → ranked.items ≡ map (rank_of rows prop) ids → sorted ≡ sorted_by (sort_cmp rows prop direction) ids) }
{
    let ranked = sorted_ranks(direction, ranked);
    let sorted = without_keys(alloc, &ranked)?;
    Ok(sorted)
}
