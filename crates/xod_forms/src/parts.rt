//! Lists of ids that are made of one or two others.
ghost use Rattle.std.specs.Prelude.{◌≡◌, ◌++◌, IfOk, drop, not, take};
ghost use Rattle.std.specs.List.{filter};
ghost use Rattle.xod_base.specs.Evaluation.{has_id, rising};

use std::alloc::Global;
use xod_base::{IdList, Memory};
use xod_sets::{intersect, minus, rising_of, rising_parts_suffice, union};

/// The ids in either list, rising.
pub fn in_either(alloc: Global, left: IdList, right: IdList) -> Result<IdList, Memory>
    ensures { IfOk result (λ ids. ids ≡ rising (left ++ right)) }
{
    rising_parts_suffice();
    let left = rising_of(left);
    let right = rising_of(right);
    let ids = union(alloc, &left, &right)?;
    Ok(ids)
}

/// The ids in both lists, rising.
pub fn in_both(alloc: Global, left: IdList, right: IdList) -> Result<IdList, Memory>
    ensures { IfOk result (λ ids. ids ≡ rising (filter (has_id right) left)) }
{
    rising_parts_suffice();
    let left = rising_of(left);
    let right = rising_of(right);
    let ids = intersect(alloc, &left, &right)?;
    Ok(ids)
}

/// The ids in the left list and not in the right one, rising.
pub fn in_first(alloc: Global, left: IdList, right: IdList) -> Result<IdList, Memory>
    ensures { IfOk result (λ ids. ids ≡ rising (filter (λ id. not (has_id right id)) left)) }
{
    rising_parts_suffice();
    let left = rising_of(left);
    let right = rising_of(right);
    let ids = minus(alloc, &left, &right)?;
    Ok(ids)
}

/// A list without its first ids.
pub fn skipped(alloc: Global, count: u32, ids: &IdList) -> Result<IdList, Memory>
    ensures { IfOk result (λ rest. rest ≡ drop count ids.now) }
{
    let numbers = ids.as_numbers();
    let count = numbers.len().min(count as usize);
    let (_, rest) = numbers.split_at(count);
    Ok(IdList::from_numbers(Vec::from_slice(alloc, rest)?))
}

/// The first ids of a list. It takes no memory.
pub fn taken(count: u32, ids: IdList) -> IdList
    ensures { result ≡ take count ids }
{
    if ids.as_numbers().len() <= count as usize {
        return ids;
    }
    let mut numbers = ids.into_numbers();
    numbers.truncate(count as usize);
    IdList::from_numbers(numbers)
}
