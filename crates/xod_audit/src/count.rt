//! Walks over whole trees.
ghost use Rattle.std.specs.Prelude.{◌≡◌, ◌≤◌, ◌==◌};
ghost use Rattle.std.specs.FinMap.{entries, len as len_of};
ghost use Rattle.xod_tables.specs.Reading.{tree_at};
ghost use Rattle.xod_audit.specs.Checks.{counted, test_of};
ghost use Rattle.xod_audit.specs.Looks.{Looks};

use crate::check::{Check, passes};
use crate::look::{first_pair, next_pair};
use std::alloc::Global;
use xod_base::{ReadError, TreeView};

/// How many entries a tree has, and `None` exactly where one of them does not pass.
///
/// More entries than any memory holds are no answer, so that the walk ends over any view.
pub(crate) fn count_passing<T: TreeView>(
    view: &mut T,
    alloc: Global,
    tree: u8,
    check: &Check,
) -> Result<Option<u64>, ReadError>
    requires { (1 ≤ tree) × (tree ≤ 8) }
    ensures looks { Looks T.tells T.trees T.commit T.refs T.faults view.old view.new
        (λ trees. counted (test_of check.now trees) (entries (tree_at trees tree))) result }
{
    let mut found = first_pair(view, alloc, tree, &[])?;
    let mut count: u64 = 0;
    'walk: while let Some(pair) = found {
        if count == u64::MAX {
            return Err(ReadError::Memory);
        }
        if !passes(view, alloc, check, &pair)? {
            return Ok(None);
        }
        count += 1;
        found = next_pair(view, alloc, tree, pair.key.as_slice())?;
    }
    Ok(Some(count))
}

/// Whether a tree has so many entries.
pub(crate) fn has_count<T: TreeView>(
    view: &mut T,
    alloc: Global,
    tree: u8,
    count: u64,
) -> Result<bool, ReadError>
    requires { (1 ≤ tree) × (tree ≤ 8) }
    ensures looks { Looks T.tells T.trees T.commit T.refs T.faults view.old view.new
        (λ trees. len_of (tree_at trees tree) == count) result }
{
    match count_passing(view, alloc, tree, &Check::Any)? {
        None => Ok(false),
        Some(found) => Ok(found == count),
    }
}
