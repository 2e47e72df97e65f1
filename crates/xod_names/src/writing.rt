//! Names that are written.
ghost use Rattle.std.specs.Prelude.{◌≡◌, ◌++◌, OnOk, is_ok, if◌then◌else◌};
ghost use Rattle.xod_overlay.specs.Marks.{all_touching, touched};
ghost use Rattle.xod_tables.specs.Writes.{name_writes};

use std::alloc::Global;
use xod_base::{Memory, NameKind, Text};
use xod_keys::{name_key, number_key, push_put};
use xod_overlay::{Overlay, WriteList};
use xod_tables::{NAMES, NUMBERS};

/// Puts what a new name writes behind other writes: its number gets the name, and the name the number.
pub fn push_name(
    writes: &mut WriteList,
    alloc: Global,
    list: NameKind,
    number: u32,
    name: &Text,
) -> Result<(), Memory>
    ensures { OnOk result (writes.new ≡ writes.old ++ name_writes list number name.now) }
{
    let key = number_key(alloc, list, name)?;
    push_put(
        writes,
        alloc,
        NAMES,
        &name_key(list, number),
        name.as_bytes(),
    )?;
    push_put(
        writes,
        alloc,
        NUMBERS,
        key.as_slice(),
        &number.to_be_bytes(),
    )?;
    Ok(())
}

/// Adds a name with its number to a list. A refusal leaves the overlay as it was.
pub fn add_name(
    own: &mut Overlay,
    alloc: Global,
    list: NameKind,
    number: u32,
    name: &Text,
) -> Result<(), Memory>
    ensures { touched own.new ≡ (if is_ok result then all_touching (touched own.old) (name_writes list number name.now) else touched own.old) }
{
    let mut writes = WriteList::new(alloc);
    push_name(&mut writes, alloc, list, number, name)?;
    own.write_all(alloc, writes)
}
