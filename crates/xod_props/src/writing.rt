//! Properties that are written.
ghost use Rattle.std.specs.Prelude.{◌≡◌, ◌++◌, [], IfOk, OnOk, is_ok, if◌then◌else◌, map};
ghost use Rattle.std.specs.Option.{option_copied, option_map};
ghost use Rattle.xod_base.specs.Values.{key_of};
ghost use Rattle.xod_overlay.specs.Marks.{all_touching, touched};
ghost use Rattle.xod_tables.specs.Keys.{index_key as index_bytes, property_key as property_bytes, stored};
ghost use Rattle.xod_tables.specs.Writes.{keys_of_option, put, removed, value_writes};

use std::alloc::Global;
use xod_base::{Bytes, EntityId, Memory, Value};
use xod_keys::{index_key, property_key, push_put, push_removed, stored_value};
use xod_overlay::{Overlay, Write, WriteList};
use xod_tables::{INDEX, PROPERTIES};

/// The key of a property, as a list of bytes.
fn listed_key(alloc: Global, id: EntityId, prop: u32) -> Result<Bytes, Memory>
    ensures { IfOk result (λ key. key ≡ property_bytes id prop) }
{
    Ok(Bytes::from_vec(Vec::from_slice(alloc, &property_key(id, prop))?))
}

/// A value as it is stored, where there is one.
fn stored_mark(alloc: Global, value: Option<&Value>) -> Result<Option<Bytes>, Memory>
    ensures { IfOk result (λ mark. mark ≡ option_map stored (option_copied value.entry)) }
{
    match value {
        None => Ok(None),
        Some(value) => Ok(Some(stored_value(alloc, value)?)),
    }
}

/// The key of the index under which an entity stands by the value of its property.
fn entry_key(alloc: Global, id: EntityId, prop: u32, value: &Value) -> Result<Bytes, Memory>
    ensures { IfOk result (λ bytes. bytes ≡ index_bytes id prop (key_of value.now)) }
{
    let key = value.key_bytes(alloc)?;
    let bytes = index_key(alloc, id, prop, key.as_slice())?;
    Ok(bytes)
}

/// Puts behind other writes those by which an old value's keys go from the index.
fn push_removals(
    writes: &mut WriteList,
    alloc: Global,
    id: EntityId,
    prop: u32,
    old: Option<&Value>,
) -> Result<(), Memory>
    ensures { OnOk result (writes.new ≡ writes.old
        ++ map (λ key. removed INDEX (index_bytes id prop key)) (keys_of_option (option_copied old.entry))) }
{
    if let Some(value) = old {
        let key = entry_key(alloc, id, prop, value)?;
        push_removed(writes, alloc, INDEX, key.as_slice())?;
    }
    Ok(())
}

/// Puts behind other writes those by which a new value's keys come into the index.
fn push_entries(
    writes: &mut WriteList,
    alloc: Global,
    id: EntityId,
    prop: u32,
    new: Option<&Value>,
) -> Result<(), Memory>
    ensures { OnOk result (writes.new ≡ writes.old
        ++ map (λ key. put INDEX (index_bytes id prop key) []) (keys_of_option (option_copied new.entry))) }
{
    if let Some(value) = new {
        let key = entry_key(alloc, id, prop, value)?;
        push_put(writes, alloc, INDEX, key.as_slice(), &[])?;
    }
    Ok(())
}

/// Puts what a property with another value writes behind other writes: the value, or that it goes, then the old value's
/// keys in the index, which go, and the new value's, which come. Either value may be absent.
pub fn push_change(
    writes: &mut WriteList,
    alloc: Global,
    id: EntityId,
    prop: u32,
    old: Option<&Value>,
    new: Option<&Value>,
) -> Result<(), Memory>
    ensures { OnOk result (writes.new ≡ writes.old ++ value_writes id prop (option_copied old.entry) (option_copied new.entry)) }
{
    let key = listed_key(alloc, id, prop)?;
    let value = stored_mark(alloc, new)?;
    writes.push(Write {
        tree: PROPERTIES,
        key,
        value,
    })?;
    push_removals(writes, alloc, id, prop, old)?;
    push_entries(writes, alloc, id, prop, new)?;
    Ok(())
}

/// Gives a property another value. Either value may be absent. A refusal leaves the overlay as it was.
pub fn change(
    own: &mut Overlay,
    alloc: Global,
    id: EntityId,
    prop: u32,
    old: Option<&Value>,
    new: Option<&Value>,
) -> Result<(), Memory>
    ensures { touched own.new ≡ (if is_ok result
        then all_touching (touched own.old) (value_writes id prop (option_copied old.entry) (option_copied new.entry))
        else touched own.old) }
{
    let mut writes = WriteList::new(alloc);
    push_change(&mut writes, alloc, id, prop, old, new)?;
    own.write_all(alloc, writes)
}
