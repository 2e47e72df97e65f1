//! The lists of names and of next numbers, read number by number.
ghost use Rattle.std.specs.Prelude.{◌≡◌, ◌≤◌, IfOk, IfSome, Some, None, length, if◌then◌else◌};
ghost use Rattle.xod_base.specs.Rows.{is_name};
ghost use Rattle.xod_tables.specs.Reading.{tree_at};
ghost use Rattle.xod_tables.specs.declared.trees.TheConstants.{NAMES as NAMES_TREE, NEXT as NEXT_TREE, NUMBERS as NUMBERS_TREE};
ghost use Rattle.xod_audit.specs.Checks.{names_that};
ghost use Rattle.xod_audit.specs.Looks.{Looks};
ghost use Rattle.xod_audit.specs.Tests.{names_listed, next_in, nexts_from, numbers_stand};

use crate::look::{stands, value_at};
use std::alloc::Global;
use xod_base::{
    LONGEST_NAME, Listed, MOST_LOCALS, MOST_NAMES, Memory, NameKind, NameList, ReadError, Text,
    TreeView,
};
use xod_keys::{name_key, next_key, number_key, read_name, read_next};
use xod_tables::{NAMES, NEXT, NUMBERS};

/// The name that bytes are, and `None` exactly where they are none.
fn name_of(alloc: Global, bytes: &[u8]) -> Result<Option<Text>, Memory>
    ensures { IfOk result (λ name. name ≡ (if is_name bytes.now then Some bytes.now else None)) }
{
    if bytes.is_empty() || bytes.len() > LONGEST_NAME {
        return Ok(None);
    }
    let name = read_name(alloc, bytes)?;
    Ok(name)
}

/// The names of a list, and `None` exactly where one of them is no name.
pub(crate) fn read_names<T: TreeView>(
    view: &mut T,
    alloc: Global,
    list: NameKind,
) -> Result<Option<NameList>, ReadError>
    ensures looks { Looks T.tells T.trees T.commit T.refs T.faults view.old view.new
        (λ trees. names_that (names_listed list (tree_at trees NAMES_TREE))) result }
    ensures few { IfOk result (λ found. IfSome found (λ names. length names ≤ 4096)) }
{
    let mut names = NameList::new(alloc);
    let mut number: u32 = 0;
    'walk: while number < MOST_NAMES as u32 {
        match value_at(view, alloc, NAMES, &name_key(list, number))? {
            None => return Ok(Some(names)),
            Some(bytes) => match name_of(alloc, bytes.as_slice())? {
                None => return Ok(None),
                Some(name) => names.push(name)?,
            },
        }
        number += 1;
    }
    Ok(Some(names))
}

/// Whether each name of a list has its number.
pub(crate) fn have_numbers<T: TreeView>(
    view: &mut T,
    alloc: Global,
    list: NameKind,
    names: &NameList,
) -> Result<bool, ReadError>
    requires { length names.now ≤ 4096 }
    ensures looks { Looks T.tells T.trees T.commit T.refs T.faults view.old view.new
        (λ trees. numbers_stand (tree_at trees NUMBERS_TREE) list names.now) result }
{
    let mut number: u32 = 0;
    let names = names.as_slice();
    'walk: while (number as usize) < names.len() {
        let key = number_key(alloc, list, &names[number as usize])?;
        if !stands(view, alloc, NUMBERS, key.as_slice(), &number.to_be_bytes())? {
            return Ok(false);
        }
        number += 1;
    }
    Ok(true)
}

/// The next number that bytes are, and `None` exactly where they are none.
fn next_of(bytes: &[u8]) -> Option<u64>
    ensures { result ≡ next_in bytes.now }
{
    match read_next(bytes) {
        None => None,
        Some(next) => {
            if next > MOST_LOCALS {
                return None;
            }
            Some(next)
        }
    }
}

/// The next numbers of so many types, and `None` exactly where one of them is not there.
pub(crate) fn read_nexts<T: TreeView>(
    view: &mut T,
    alloc: Global,
    count: u32,
) -> Result<Option<Listed<u64>>, ReadError>
    ensures looks { Looks T.tells T.trees T.commit T.refs T.faults view.old view.new
        (λ trees. nexts_from (tree_at trees NEXT_TREE) count 0) result }
{
    let mut nexts = Listed::new(alloc);
    let mut kind: u32 = 0;
    'walk: while kind < count {
        match value_at(view, alloc, NEXT, &next_key(kind))? {
            None => return Ok(None),
            Some(bytes) => match next_of(bytes.as_slice()) {
                None => return Ok(None),
                Some(next) => nexts.push(next)?,
            },
        }
        kind += 1;
    }
    Ok(Some(nexts))
}
