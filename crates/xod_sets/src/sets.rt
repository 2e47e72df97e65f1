//! The union, the intersection and the difference of two lists that rise.
//!
//! Each goes once over the numbers of both lists: the lower of the two first numbers is looked at and left behind.
ghost use Rattle.std.specs.Prelude.{◌≡◌, ◌++◌, IfOk, IsTrue, map, not};
ghost use Rattle.std.specs.List.{filter};
ghost use Rattle.xod_base.specs.Evaluation.{has_id, rising};
ghost use Rattle.xod_base.specs.Ids.{id_of_number};
ghost use Rattle.xod_sets.specs.Rising.{rises};

use std::alloc::Global;
use std::cmp::Ordering;
use xod_base::{IdList, Memory};

/// The numbers in either list.
fn numbers_in_either(alloc: Global, a: &[u64], b: &[u64]) -> Result<Vec<u64>, Memory>
    requires rises_a { IsTrue (rises (map id_of_number a.now)) }
    requires rises_b { IsTrue (rises (map id_of_number b.now)) }
    ensures { IfOk result (λ numbers. map id_of_number numbers.items
        ≡ rising (map id_of_number a.now ++ map id_of_number b.now)) }
{
    let mut numbers = Vec::with_capacity(alloc, a.len() + b.len())?;
    let mut left = a;
    let mut right = b;
    while let (Some((first, more)), Some((other, others))) = (
        left.split_first(),
        right.split_first(),
    ) {
        match first.cmp(other) {
            Ordering::Less => {
                numbers.push(*first)?;
                left = more;
            }
            Ordering::Equal => {
                numbers.push(*first)?;
                left = more;
                right = others;
            }
            Ordering::Greater => {
                numbers.push(*other)?;
                right = others;
            }
        }
    }
    numbers.extend_from_slice(left)?;
    numbers.extend_from_slice(right)?;
    Ok(numbers)
}

/// The numbers in both lists.
fn numbers_in_both(alloc: Global, a: &[u64], b: &[u64]) -> Result<Vec<u64>, Memory>
    requires rises_a { IsTrue (rises (map id_of_number a.now)) }
    requires rises_b { IsTrue (rises (map id_of_number b.now)) }
    ensures { IfOk result (λ numbers. map id_of_number numbers.items
        ≡ rising (filter (has_id (map id_of_number b.now)) (map id_of_number a.now))) }
{
    let mut numbers = Vec::new(alloc);
    let mut left = a;
    let mut right = b;
    while let (Some((first, more)), Some((other, others))) = (
        left.split_first(),
        right.split_first(),
    ) {
        match first.cmp(other) {
            Ordering::Less => left = more,
            Ordering::Equal => {
                numbers.push(*first)?;
                left = more;
                right = others;
            }
            Ordering::Greater => right = others,
        }
    }
    Ok(numbers)
}

/// The numbers in the first list alone.
fn numbers_in_first(alloc: Global, a: &[u64], b: &[u64]) -> Result<Vec<u64>, Memory>
    requires rises_a { IsTrue (rises (map id_of_number a.now)) }
    requires rises_b { IsTrue (rises (map id_of_number b.now)) }
    ensures { IfOk result (λ numbers. map id_of_number numbers.items
        ≡ rising (filter (λ id. not (has_id (map id_of_number b.now) id)) (map id_of_number a.now))) }
{
    let mut numbers = Vec::new(alloc);
    let mut left = a;
    let mut right = b;
    while let (Some((first, more)), Some((other, others))) = (
        left.split_first(),
        right.split_first(),
    ) {
        match first.cmp(other) {
            Ordering::Less => {
                numbers.push(*first)?;
                left = more;
            }
            Ordering::Equal => {
                left = more;
                right = others;
            }
            Ordering::Greater => right = others,
        }
    }
    numbers.extend_from_slice(left)?;
    Ok(numbers)
}

/// The ids in either list, each once, rising.
pub fn union(alloc: Global, a: &IdList, b: &IdList) -> Result<IdList, Memory>
    requires rises_a { IsTrue (rises a.now) }
    requires rises_b { IsTrue (rises b.now) }
    ensures exactly { IfOk result (λ ids. ids ≡ rising (a.now ++ b.now)) }
    ensures rises { IfOk result (λ ids. IsTrue (rises ids)) }
{
    let numbers = numbers_in_either(alloc, a.as_numbers(), b.as_numbers())?;
    Ok(IdList::from_numbers(numbers))
}

/// The ids in both lists, rising.
pub fn intersect(alloc: Global, a: &IdList, b: &IdList) -> Result<IdList, Memory>
    requires rises_a { IsTrue (rises a.now) }
    requires rises_b { IsTrue (rises b.now) }
    ensures exactly { IfOk result (λ ids. ids ≡ rising (filter (has_id b.now) a.now)) }
    ensures rises { IfOk result (λ ids. IsTrue (rises ids)) }
{
    let numbers = numbers_in_both(alloc, a.as_numbers(), b.as_numbers())?;
    Ok(IdList::from_numbers(numbers))
}

/// The ids in the first list and not in the second, rising.
pub fn minus(alloc: Global, a: &IdList, b: &IdList) -> Result<IdList, Memory>
    requires rises_a { IsTrue (rises a.now) }
    requires rises_b { IsTrue (rises b.now) }
    ensures exactly { IfOk result (λ ids. ids ≡ rising (filter (λ id. not (has_id b.now id)) a.now)) }
    ensures rises { IfOk result (λ ids. IsTrue (rises ids)) }
{
    let numbers = numbers_in_first(alloc, a.as_numbers(), b.as_numbers())?;
    Ok(IdList::from_numbers(numbers))
}
