//! The audit.
ghost use Rattle.std.specs.Prelude.{◌≡◌, ◌≤◌, ◌+◌, ◌&&◌, ◌==◌, IfOk, IfSome, length};
ghost use Rattle.std.specs.FinMap.{entries, len as len_of};
ghost use Rattle.xod_base.specs.Views.{CountsFaults, KeepsView};
ghost use Rattle.xod_tables.specs.Reading.{tree_at};
ghost use Rattle.xod_tables.specs.declared.trees.TheConstants.{
  NAMES as NAMES_TREE,
  NUMBERS as NUMBERS_TREE,
  NEXT as NEXT_TREE,
  ENTITIES as ENTITIES_TREE,
  PROPERTIES as PROPERTIES_TREE,
  INDEX as INDEX_TREE,
  LINKS as LINKS_TREE,
  BACK as BACK_TREE,
};
ghost use Rattle.xod_audit.specs.Audits.{Audits};
ghost use Rattle.xod_audit.specs.Checks.{AreShort, fit_to as fit_to_lists, have_their_numbers as numbers_test, kinds_audited, lists_in, total_of};
ghost use Rattle.xod_audit.specs.Looks.{Looks};
ghost use Rattle.xod_audit.specs.Tests.{entities_fit as entities_test, holds, links_fit as links_test, nexts_counted, nexts_from, properties_fit as properties_test};

use crate::check::Check;
use crate::count::{count_passing, has_count};
use crate::lists::{have_numbers, read_names, read_nexts};
use std::alloc::Global;
use xod_base::{Listed, NameKind, NameList, ReadError, TreeView};
use xod_tables::{BACK, ENTITIES, INDEX, LINKS, NAMES, NEXT, NUMBERS, PROPERTIES};

/// The three lists of names.
#[derive(Debug, Drop)]
pub struct Lists {
    pub kinds: NameList,
    pub props: NameList,
    pub links: NameList,
}

/// The three lists, and `None` exactly where they have what is no name.
fn read_lists<T: TreeView>(view: &mut T, alloc: Global) -> Result<Option<Lists>, ReadError>
    ensures looks { Looks T.tells T.trees T.commit T.refs T.faults view.old view.new (λ trees. lists_in (tree_at trees NAMES_TREE)) result }
    ensures few { IfOk result (λ found. IfSome found AreShort) }
{
    match read_names(view, alloc, NameKind::Kinds)? {
        None => Ok(None),
        Some(kinds) => match read_names(view, alloc, NameKind::Props)? {
            None => Ok(None),
            Some(props) => match read_names(view, alloc, NameKind::Links)? {
                None => Ok(None),
                Some(links) => Ok(Some(Lists {
                    kinds,
                    props,
                    links,
                })),
            },
        },
    }
}

/// Whether the names have their numbers, and the tree of numbers has nothing else.
fn numbers_fit<T: TreeView>(
    view: &mut T,
    alloc: Global,
    lists: &Lists,
    total: u64,
) -> Result<bool, ReadError>
    requires { AreShort lists.now }
    ensures looks { Looks T.tells T.trees T.commit T.refs T.faults view.old view.new
        (λ trees. numbers_test (tree_at trees NUMBERS_TREE) lists.now total) result }
{
    if !have_numbers(view, alloc, NameKind::Kinds, &lists.kinds)? {
        return Ok(false);
    }
    if !have_numbers(view, alloc, NameKind::Props, &lists.props)? {
        return Ok(false);
    }
    if !have_numbers(view, alloc, NameKind::Links, &lists.links)? {
        return Ok(false);
    }
    let found = has_count(view, alloc, NUMBERS, total)?;
    Ok(found)
}

/// The next numbers of so many types, and `None` exactly where one is not there or something else is.
fn nexts_of<T: TreeView>(
    view: &mut T,
    alloc: Global,
    count: usize,
) -> Result<Option<Listed<u64>>, ReadError>
    requires { count ≤ 4096 }
    ensures looks { Looks T.tells T.trees T.commit T.refs T.faults view.old view.new
        (λ trees. nexts_counted (tree_at trees NEXT_TREE) count) result }
{
    if !has_count(view, alloc, NEXT, count as u64)? {
        return Ok(None);
    }
    let found = read_nexts(view, alloc, count as u32)?;
    Ok(found)
}

/// Whether each entity was drawn, by the next numbers of so many types.
fn entities_fit<T: TreeView>(view: &mut T, alloc: Global, count: usize) -> Result<bool, ReadError>
    requires { count ≤ 4096 }
    ensures looks { Looks T.tells T.trees T.commit T.refs T.faults view.old view.new
        (λ trees. holds (entities_test (tree_at trees ENTITIES_TREE)) (nexts_counted (tree_at trees NEXT_TREE) count)) result }
{
    match nexts_of(view, alloc, count)? {
        None => Ok(false),
        Some(nexts) => {
            let found = count_passing(view, alloc, ENTITIES, &Check::Entity(nexts))?;
            Ok(found.is_some())
        }
    }
}

/// Whether each property is one, of so many that are listed, and the index has these alone.
fn properties_fit<T: TreeView>(view: &mut T, alloc: Global, count: usize) -> Result<bool, ReadError>
    ensures looks { Looks T.tells T.trees T.commit T.refs T.faults view.old view.new
        (λ trees. properties_test count (tree_at trees ENTITIES_TREE) (tree_at trees PROPERTIES_TREE) (tree_at trees INDEX_TREE)) result }
{
    match count_passing(view, alloc, PROPERTIES, &Check::Property(count))? {
        None => Ok(false),
        Some(entries) => {
            let found = has_count(view, alloc, INDEX, entries)?;
            Ok(found)
        }
    }
}

/// Whether each link is one, of so many that are listed, and by their targets there are these alone.
fn links_fit<T: TreeView>(view: &mut T, alloc: Global, count: usize) -> Result<bool, ReadError>
    ensures looks { Looks T.tells T.trees T.commit T.refs T.faults view.old view.new
        (λ trees. links_test count (tree_at trees ENTITIES_TREE) (tree_at trees LINKS_TREE) (tree_at trees BACK_TREE)) result }
{
    match count_passing(view, alloc, LINKS, &Check::Link(count))? {
        None => Ok(false),
        Some(entries) => {
            let found = has_count(view, alloc, BACK, entries)?;
            Ok(found)
        }
    }
}

/// Whether the trees fit to the lists of names.
fn fit_to<T: TreeView>(view: &mut T, alloc: Global, lists: &Lists) -> Result<bool, ReadError>
    requires { AreShort lists.now }
    ensures looks { Looks T.tells T.trees T.commit T.refs T.faults view.old view.new (λ trees. fit_to_lists trees lists.now) result }
{
    let total = (lists.kinds.len() + (lists.props.len() + lists.links.len())) as u64;
    if !has_count(view, alloc, NAMES, total)? {
        return Ok(false);
    }
    if !numbers_fit(view, alloc, lists, total)? {
        return Ok(false);
    }
    if !entities_fit(view, alloc, lists.kinds.len())? {
        return Ok(false);
    }
    if !properties_fit(view, alloc, lists.props.len())? {
        return Ok(false);
    }
    let found = links_fit(view, alloc, lists.links.len())?;
    Ok(found)
}

/// The types of trees that fit to their lists of names.
fn audited<T: TreeView>(view: &mut T, alloc: Global) -> Result<Option<NameList>, ReadError>
    ensures looks { Looks T.tells T.trees T.commit T.refs T.faults view.old view.new (λ trees. kinds_audited trees (lists_in (tree_at trees NAMES_TREE))) result }
{
    match read_lists(view, alloc)? {
        None => Ok(None),
        Some(lists) => {
            if !fit_to(view, alloc, &lists)? {
                return Ok(None);
            }
            Ok(Some(lists.kinds))
        }
    }
}

/// The names of the types, by their numbers, of the rows that a view's trees are the tables of; `None` exactly where
/// they are the tables of no rows.
///
/// It goes over each tree once, with at most three look-ups for an entry, and keeps the names and next numbers alone.
pub fn audit<T: TreeView>(view: &mut T, alloc: Global) -> Result<Option<NameList>, ReadError>
    ensures audits { Audits (T.tells view.old) (T.trees view.old) result }
    ensures counts { CountsFaults (T.faults view.old) (T.faults view.new) result }
    ensures keeps { KeepsView T.tells T.trees T.commit T.refs T.faults view.old view.new }
{
    audited(view, alloc)
}
