//! Names and their numbers.
ghost use Rattle.std.specs.Prelude.{◌≡◌};
ghost use Rattle.std.specs.List.{slice_get};
ghost use Rattle.xod_base.specs.Rows.{number_of as number_in};
ghost use Rattle.xod_base.specs.Views.{CountsFaults, KeepsView};
ghost use Rattle.xod_tables.specs.LookUps.{names_of};
ghost use Rattle.xod_reader.specs.Slots.{end_slot as slot_at_end, slot_of as slot_in};
ghost use Rattle.xod_reader.specs.Told.{ReadsRows};

use std::alloc::Global;
use xod_base::{MOST_NAMES, NameKind, ReadError, Text, TreeView};
use xod_readings::names_of_rows_are_read;

/// Where a name stands in its list.
#[derive(Clone, Copy, Debug, PartialEq, Eq)]
pub enum Slot {
    /// It is listed with this number.
    Listed(u32),
    /// It is not listed, and this is the number that it would have.
    Free(u32),
    /// It is not listed, and the list has room for no more names.
    Full,
}

/// Where a name would stand that is not listed, behind this many names.
fn end_slot(count: u32) -> Slot
    ensures { result ≡ slot_at_end count }
{
    if (count as usize) < MOST_NAMES {
        Slot::Free(count)
    } else {
        Slot::Full
    }
}

/// The number of a name in a list of names, and `None` exactly where it is not listed.
pub fn number_of<T: TreeView>(
    view: &mut T,
    alloc: Global,
    list: NameKind,
    name: &Text,
) -> Result<Option<u32>, ReadError>
    ensures reads { ReadsRows (T.tells view.old) (T.trees view.old) (λ rows. number_in (names_of rows list) name.now) result }
    ensures counts { CountsFaults (T.faults view.old) (T.faults view.new) result }
    ensures keeps { KeepsView T.tells T.trees T.commit T.refs T.faults view.old view.new }
{
    names_of_rows_are_read();
    xod_names::number_of(view, alloc, list, name)
}

/// Where a name stands in a list of names, or would stand.
pub fn slot_of<T: TreeView>(
    view: &mut T,
    alloc: Global,
    list: NameKind,
    name: &Text,
) -> Result<Slot, ReadError>
    ensures reads { ReadsRows (T.tells view.old) (T.trees view.old) (λ rows. slot_in (names_of rows list) name.now) result }
    ensures counts { CountsFaults (T.faults view.old) (T.faults view.new) result }
    ensures keeps { KeepsView T.tells T.trees T.commit T.refs T.faults view.old view.new }
{
    names_of_rows_are_read();
    match xod_names::number_of(view, alloc, list, name)? {
        Some(number) => Ok(Slot::Listed(number)),
        None => Ok(end_slot(xod_names::count(view, alloc, list)?)),
    }
}

/// The name with a number, and `None` exactly where no name has it.
pub fn name_of<T: TreeView>(
    view: &mut T,
    alloc: Global,
    list: NameKind,
    number: u32,
) -> Result<Option<Text>, ReadError>
    ensures reads { ReadsRows (T.tells view.old) (T.trees view.old) (λ rows. slice_get (names_of rows list) number) result }
    ensures counts { CountsFaults (T.faults view.old) (T.faults view.new) result }
    ensures keeps { KeepsView T.tells T.trees T.commit T.refs T.faults view.old view.new }
{
    names_of_rows_are_read();
    xod_names::name_of(view, alloc, list, number)
}
