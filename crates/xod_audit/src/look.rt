//! Look-ups in the eight trees of a view.
ghost use Rattle.std.specs.Prelude.{◌≡◌, ◌≤◌, is_some};
ghost use Rattle.std.specs.Option.{option_map};
ghost use Rattle.std.specs.FinMap.{get};
ghost use Rattle.xod_base.specs.Views.{least_pair, above, not_below};
ghost use Rattle.xod_tables.specs.Keys.{entity_key as entity_bytes};
ghost use Rattle.xod_tables.specs.Reading.{is_written, tree_at};
ghost use Rattle.xod_tables.specs.declared.trees.TheConstants.{ENTITIES as ENTITIES_TREE};
ghost use Rattle.xod_audit.specs.Looks.{Looks};

use std::alloc::Global;
use xod_base::{Bytes, EntityId, Pair, ReadError, TreeView};
use xod_keys::entity_key;
use xod_tables::ENTITIES;

/// The value at a key of one of the eight trees.
pub(crate) fn value_at<T: TreeView>(
    view: &mut T,
    alloc: Global,
    tree: u8,
    key: &[u8],
) -> Result<Option<Bytes>, ReadError>
    requires { (1 ≤ tree) × (tree ≤ 8) }
    ensures looks { Looks T.tells T.trees T.commit T.refs T.faults view.old view.new
        (λ trees. get (tree_at trees tree) key.now) result }
{
    let found = view.get(alloc, tree, key)?;
    Ok(found)
}

/// The pair of one of the eight trees with the least key that is not below a key.
pub(crate) fn first_pair<T: TreeView>(
    view: &mut T,
    alloc: Global,
    tree: u8,
    key: &[u8],
) -> Result<Option<Pair>, ReadError>
    requires { (1 ≤ tree) × (tree ≤ 8) }
    ensures looks { Looks T.tells T.trees T.commit T.refs T.faults view.old view.new
        (λ trees. least_pair (not_below key.now) (tree_at trees tree)) result }
{
    let found = view.seek(alloc, tree, key)?;
    Ok(found)
}

/// The pair of one of the eight trees with the least key above a key.
pub(crate) fn next_pair<T: TreeView>(
    view: &mut T,
    alloc: Global,
    tree: u8,
    key: &[u8],
) -> Result<Option<Pair>, ReadError>
    requires { (1 ≤ tree) × (tree ≤ 8) }
    ensures looks { Looks T.tells T.trees T.commit T.refs T.faults view.old view.new
        (λ trees. least_pair (above key.now) (tree_at trees tree)) result }
{
    let found = view.next(alloc, tree, key)?;
    Ok(found)
}

/// Whether a tree has these bytes at a key.
pub(crate) fn stands<T: TreeView>(
    view: &mut T,
    alloc: Global,
    tree: u8,
    key: &[u8],
    bytes: &[u8],
) -> Result<bool, ReadError>
    requires { (1 ≤ tree) × (tree ≤ 8) }
    ensures looks { Looks T.tells T.trees T.commit T.refs T.faults view.old view.new
        (λ trees. is_written (get (tree_at trees tree) key.now) bytes.now) result }
{
    match value_at(view, alloc, tree, key)? {
        None => Ok(false),
        Some(found) => Ok(found.as_slice() == bytes),
    }
}

/// Whether an entity is there.
pub(crate) fn is_there<T: TreeView>(
    view: &mut T,
    alloc: Global,
    id: EntityId,
) -> Result<bool, ReadError>
    ensures looks { Looks T.tells T.trees T.commit T.refs T.faults view.old view.new
        (λ trees. is_some (get (tree_at trees ENTITIES_TREE) (entity_bytes id))) result }
{
    let found = value_at(view, alloc, ENTITIES, &entity_key(id))?;
    Ok(found.is_some())
}
