//! Names and numbers that are read.
ghost use Rattle.xod_base.specs.Views.{CountsFaults, KeepsView};
ghost use Rattle.xod_range.specs.Reads.{Finds, Reads};
ghost use Rattle.xod_keys.specs.Readings.{IsNamesEnd, name_at, names_at, number_at};

use std::alloc::Global;
use xod_base::{MOST_NAMES, NameKind, NameList, ReadError, Text, TreeView};
use xod_keys::{name_key, number_key, read_name, read_number};
use xod_range::{NOWHERE, Range};
use xod_tables::{NAMES, NUMBERS};

/// The number of a name, and `None` exactly where there is no such name.
pub fn number_of<T: TreeView>(
    view: &mut T,
    alloc: Global,
    list: NameKind,
    name: &Text,
) -> Result<Option<u32>, ReadError>
    ensures reads { Reads (T.tells view.old) (T.trees view.old NUMBERS) (number_at list name.now) result }
    ensures counts { CountsFaults (T.faults view.old) (T.faults view.new) result }
    ensures keeps { KeepsView T.tells T.trees T.commit T.refs T.faults view.old view.new }
{
    let key = number_key(alloc, list, name)?;
    let Some(bytes) = view.get(alloc, NUMBERS, key.as_slice())? else {
        return Ok(None);
    };
    match read_number(bytes.as_slice()) {
        Some(number) => Ok(Some(number)),
        None => Err(ReadError::Damaged(NOWHERE)),
    }
}

/// The name with a number, and `None` exactly where no name has it.
pub fn name_of<T: TreeView>(
    view: &mut T,
    alloc: Global,
    list: NameKind,
    number: u32,
) -> Result<Option<Text>, ReadError>
    ensures reads { Reads (T.tells view.old) (T.trees view.old NAMES) (name_at list number) result }
    ensures counts { CountsFaults (T.faults view.old) (T.faults view.new) result }
    ensures keeps { KeepsView T.tells T.trees T.commit T.refs T.faults view.old view.new }
{
    let Some(bytes) = view.get(alloc, NAMES, &name_key(list, number))? else {
        return Ok(None);
    };
    match read_name(alloc, bytes.as_slice())? {
        Some(name) => Ok(Some(name)),
        None => Err(ReadError::Damaged(NOWHERE)),
    }
}

/// The names of a list, by rising number.
pub fn names<T: TreeView>(
    view: &mut T,
    alloc: Global,
    list: NameKind,
) -> Result<NameList, ReadError>
    ensures reads { Reads (T.tells view.old) (T.trees view.old NAMES) (names_at list) result }
    ensures counts { CountsFaults (T.faults view.old) (T.faults view.new) result }
    ensures keeps { KeepsView T.tells T.trees T.commit T.refs T.faults view.old view.new }
{
    let mut range = Range::new(alloc, NAMES, &name_key(list, 0), &name_key(list, u32::MAX))?;
    let mut names = NameList::new(alloc);
    'walk: while let Some(pair) = range.step(view, alloc)? {
        match read_name(alloc, pair.value.as_slice())? {
            Some(name) => names.push(name)?,
            None => return Err(ReadError::Damaged(NOWHERE)),
        }
    }
    Ok(names)
}

/// How many names a list has, which is the number of the next one. It looks at a few numbers alone.
pub fn count<T: TreeView>(view: &mut T, alloc: Global, list: NameKind) -> Result<u32, ReadError>
    ensures finds { Finds (T.tells view.old) (T.trees view.old NAMES) (IsNamesEnd list) result }
    ensures counts { CountsFaults (T.faults view.old) (T.faults view.new) result }
    ensures keeps { KeepsView T.tells T.trees T.commit T.refs T.faults view.old view.new }
{
    let mut low = 0;
    let mut high = MOST_NAMES as u32;
    'halving: while low < high {
        let middle = low + (high - low) / 2;
        match view.get(alloc, NAMES, &name_key(list, middle))? {
            Some(_) => low = middle + 1,
            None => high = middle,
        }
    }
    Ok(low)
}
