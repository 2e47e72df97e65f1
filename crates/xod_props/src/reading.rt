//! Properties that are read.
ghost use Rattle.std.specs.Prelude.{◌≡◌, ◌++◌, IfOk};
ghost use Rattle.xod_base.specs.Views.{CountsFaults, KeepsView};
ghost use Rattle.xod_range.specs.Ranges.{in_range};
ghost use Rattle.xod_range.specs.Reads.{Reads};
ghost use Rattle.xod_tables.specs.Keys.{u32};
ghost use Rattle.xod_keys.specs.Pieces.{entry_read};
ghost use Rattle.xod_keys.specs.Readings.{LAST, all_read, ids_between as ids_within, numbered_read, value_at, values_at};

use std::alloc::Global;
use xod_base::{Bytes, EntityId, IdList, Listed, Memory, Pair, ReadError, TreeView, Value};
use xod_keys::{property_key, read_entry, read_prop, read_value};
use xod_range::{NOWHERE, Range};
use xod_sets::rising_of;
use xod_tables::{INDEX, PROPERTIES};

/// Values, each with the number of its property.
pub type NumberedValues = Listed<(u32, Value)>;

/// The number of a property with its value, and `None` exactly where either can't be read.
fn read_numbered(alloc: Global, pair: &Pair) -> Result<Option<(u32, Value)>, Memory>
    ensures { IfOk result (λ found. found ≡ numbered_read (pair.now.key, pair.now.value)) }
{
    let Some(number) = read_prop(pair.key.as_slice()) else {
        return Ok(None);
    };
    match read_value(alloc, pair.value.as_slice())? {
        None => Ok(None),
        Some(value) => Ok(Some((number, value))),
    }
}

/// The value of an entity's property, and `None` exactly where it has none.
pub fn value_of<T: TreeView>(
    view: &mut T,
    alloc: Global,
    id: EntityId,
    prop: u32,
) -> Result<Option<Value>, ReadError>
    ensures reads { Reads (T.tells view.old) (T.trees view.old PROPERTIES) (value_at id prop) result }
    ensures counts { CountsFaults (T.faults view.old) (T.faults view.new) result }
    ensures keeps { KeepsView T.tells T.trees T.commit T.refs T.faults view.old view.new }
{
    let key = property_key(id, prop);
    let Some(bytes) = view.get(alloc, PROPERTIES, &key)? else {
        return Ok(None);
    };
    match read_value(alloc, bytes.as_slice())? {
        None => Err(ReadError::Damaged(NOWHERE)),
        Some(value) => Ok(Some(value)),
    }
}

/// The values of an entity, by rising number of the property.
pub fn values_of<T: TreeView>(
    view: &mut T,
    alloc: Global,
    id: EntityId,
) -> Result<NumberedValues, ReadError>
    ensures reads { Reads (T.tells view.old) (T.trees view.old PROPERTIES) (values_at id) result }
    ensures counts { CountsFaults (T.faults view.old) (T.faults view.new) result }
    ensures keeps { KeepsView T.tells T.trees T.commit T.refs T.faults view.old view.new }
{
    let low = property_key(id, 0);
    let high = property_key(id, u32::MAX);
    let mut range = Range::new(alloc, PROPERTIES, &low, &high)?;
    let mut values = Listed::new(alloc);
    'walk: while let Some(pair) = range.step(view, alloc)? {
        match read_numbered(alloc, &pair)? {
            None => return Err(ReadError::Damaged(NOWHERE)),
            Some(value) => values.push(value)?,
        }
    }
    Ok(values)
}

/// The least key of the index for a type, a property and a key of a value.
fn low_key(alloc: Global, kind: u32, prop: u32, low: &[u8]) -> Result<Bytes, Memory>
    ensures { IfOk result (λ key. key ≡ u32 kind ++ (u32 prop ++ low.now)) }
{
    let mut key = Vec::from_slice(alloc, &kind.to_be_bytes())?;
    key.extend_from_slice(&prop.to_be_bytes())?;
    key.extend_from_slice(low)?;
    Ok(Bytes::from_vec(key))
}

/// The highest key of the index for a type, a property and a key of a value.
fn high_key(alloc: Global, kind: u32, prop: u32, high: &[u8]) -> Result<Bytes, Memory>
    ensures { IfOk result (λ key. key ≡ u32 kind ++ (u32 prop ++ (high.now ++ u32 LAST))) }
{
    let mut key = low_key(alloc, kind, prop, high)?;
    key.extend(&u32::MAX.to_be_bytes())?;
    Ok(key)
}

/// The entities that the index has from one key to another, in the order of the keys.
fn ids_of_keys<T: TreeView>(
    view: &mut T,
    alloc: Global,
    low: &[u8],
    high: &[u8],
) -> Result<IdList, ReadError>
    ensures reads { Reads (T.tells view.old) (T.trees view.old INDEX)
        (λ tree. all_read (λ entry. entry_read entry.0) (in_range low.now high.now tree)) result }
    ensures counts { CountsFaults (T.faults view.old) (T.faults view.new) result }
    ensures keeps { KeepsView T.tells T.trees T.commit T.refs T.faults view.old view.new }
{
    let mut range = Range::new(alloc, INDEX, low, high)?;
    let mut ids = IdList::new(alloc);
    'walk: while let Some(pair) = range.step(view, alloc)? {
        match read_entry(pair.key.as_slice()) {
            None => return Err(ReadError::Damaged(NOWHERE)),
            Some(id) => ids.push(id)?,
        }
    }
    Ok(ids)
}

/// The entities of a type that the index has under keys of a property's values from `low` to `high`, rising.
pub fn ids_between<T: TreeView>(
    view: &mut T,
    alloc: Global,
    kind: u32,
    prop: u32,
    low: &[u8],
    high: &[u8],
) -> Result<IdList, ReadError>
    ensures reads { Reads (T.tells view.old) (T.trees view.old INDEX) (ids_within kind prop low.now high.now) result }
    ensures counts { CountsFaults (T.faults view.old) (T.faults view.new) result }
    ensures keeps { KeepsView T.tells T.trees T.commit T.refs T.faults view.old view.new }
{
    let first = low_key(alloc, kind, prop, low)?;
    let last = high_key(alloc, kind, prop, high)?;
    let ids = ids_of_keys(view, alloc, first.as_slice(), last.as_slice())?;
    Ok(rising_of(ids))
}
