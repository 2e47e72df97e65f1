//! The walk over a view below and the touches over it, in step.
ghost use Rattle.std.specs.Prelude.{◌≡◌, IsTrue, Some, IfOk, IfSome};
ghost use Rattle.xod_base.specs.declared.causes.Place.{Place};
ghost use Rattle.xod_base.specs.declared.causes.ReadError.TheVariants.{Damaged};
ghost use Rattle.xod_base.specs.Views.{Tree, Answers, CountsFaults, KeepsView};
ghost use Rattle.xod_overlay.specs.Merging.{found_cmp, merged};
ghost use Rattle.xod_overlay.specs.Pieces.{rest_of};

use crate::rest::Rest;
use std::alloc::Global;
use std::cmp::Ordering;
use xod_base::{Bytes, Memory, Pair, ReadError, TreeView};

/// A list with these bytes.
pub(crate) fn copied(alloc: Global, bytes: &[u8]) -> Result<Bytes, Memory>
    ensures { IfOk result (λ list. list ≡ bytes.now) }
{
    Ok(Bytes::from_vec(Vec::from_slice(alloc, bytes)?))
}

/// A pair with these bytes.
fn pair_of(alloc: Global, key: &[u8], value: &[u8]) -> Result<Pair, Memory>
    ensures key { IfOk result (λ pair. pair.key ≡ key.now) }
    ensures value { IfOk result (λ pair. pair.value ≡ value.now) }
{
    let key = copied(alloc, key)?;
    let value = copied(alloc, value)?;
    Ok(Pair { key, value })
}

/// How what was found stands to a key. Nothing stands behind every key.
fn order_of(found: &Option<Pair>, key: &[u8]) -> Ordering
    ensures { result ≡ found_cmp found.now key.now }
{
    match found {
        None => Ordering::Greater,
        Some(pair) => pair.key.as_slice().cmp(key),
    }
}

/// The least pair of both sides: of what was found below, and of the touches from there on.
///
/// Only behind a removal mark that removes what was found is anything read.
pub(crate) fn least_of_both<T: TreeView>(
    below: &mut T,
    alloc: Global,
    tree: u8,
    touches: Rest<'_>,
    first: Option<Pair>,
) -> Result<Option<Pair>, ReadError>
    ensures answers { Answers (T.tells below.old) (T.trees below.old tree) (λ base. merged base first (rest_of touches.entry)) result }
    ensures counts { CountsFaults (T.faults below.old) (T.faults below.new) result }
    ensures keeps { KeepsView T.tells T.trees T.commit T.refs T.faults below.old below.new }
{
    let mut found = first;
    let mut rest = touches;
    while let Some((touch, later)) = rest.step() {
        let key = touch.0.as_slice();
        let order = order_of(&found, key);
        if order == Ordering::Less {
            return Ok(found);
        }
        if let Some(value) = &touch.1 {
            let pair = pair_of(alloc, key, value.as_slice())?;
            return Ok(Some(pair));
        }
        if order == Ordering::Equal {
            found = below.next(alloc, tree, key)?;
        }
        rest = later;
    }
    Ok(found)
}
