//! Properties, and entities by their values.
ghost use Rattle.std.specs.Prelude.{◌≡◌, ◌∷◌, ◌++◌, [], IfOk, IsTrue, OnOk, true};
ghost use Rattle.std.specs.FinMap.{get};
ghost use Rattle.xod_base.specs.Evaluation.{ids_with};
ghost use Rattle.xod_base.specs.Values.{folded, has_front, has_key, has_key_within, is_value, key_of};
ghost use Rattle.xod_base.specs.Views.{CountsFaults, KeepsView};
ghost use Rattle.xod_readings.specs.Laws.{IsBound, IsHighBound};
ghost use Rattle.xod_reader.specs.Named.{named_values};
ghost use Rattle.xod_reader.specs.Slots.{slot_of as slot_in};
ghost use Rattle.xod_reader.specs.Told.{ReadsRows};

use crate::entities::id_is_short;
use crate::naming::name_values;
use crate::parts::NamedValues;
use crate::slot::{Slot, number_of, slot_of};
use crate::sorting::sort_values;
use std::alloc::Global;
use xod_base::{Bytes, EntityId, IdList, Memory, NameKind, ReadError, Text, TreeView, Value};
use xod_readings::{keys_are_bounds, props_of_rows_are_read};

/// A byte above each byte of a text.
const ABOVE_TEXTS: u8 = 255;

/// A byte above the first one of each key of a value.
const ABOVE_KEYS: u8 = 4;

/// A value is one of the program's, whatever it is.
fn value_fits(value: &Value)
    ensures { IsTrue (is_value value.now) }
{
    match value {
        Value::Flag(_) => {}
        Value::Int(number) => {
            let _number = *number;
        }
        Value::Text(text) => {
            let _bytes = text.as_bytes();
        }
    }
}

/// Where a property's name stands, and its value of an entity, `None` exactly where the entity has none.
pub fn value_of<T: TreeView>(
    view: &mut T,
    alloc: Global,
    id: EntityId,
    prop: &Text,
) -> Result<(Slot, Option<Value>), ReadError>
    ensures reads { ReadsRows (T.tells view.old) (T.trees view.old) (λ rows. (slot_in rows.props prop.now, get rows.values (id, prop.now))) result }
    ensures counts { CountsFaults (T.faults view.old) (T.faults view.new) result }
    ensures keeps { KeepsView T.tells T.trees T.commit T.refs T.faults view.old view.new }
{
    id_is_short(id);
    props_of_rows_are_read();
    match slot_of(view, alloc, NameKind::Props, prop)? {
        Slot::Listed(number) => {
            let value = xod_props::value_of(view, alloc, id, number)?;
            Ok((Slot::Listed(number), value))
        }
        slot => Ok((slot, None)),
    }
}

/// The properties of an entity, by rising name.
pub fn values_of<T: TreeView>(
    view: &mut T,
    alloc: Global,
    id: EntityId,
) -> Result<NamedValues, ReadError>
    ensures reads { ReadsRows (T.tells view.old) (T.trees view.old) (λ rows. named_values rows id) result }
    ensures counts { CountsFaults (T.faults view.old) (T.faults view.new) result }
    ensures keeps { KeepsView T.tells T.trees T.commit T.refs T.faults view.old view.new }
{
    id_is_short(id);
    props_of_rows_are_read();
    let numbered = xod_props::values_of(view, alloc, id)?;
    let named = name_values(view, alloc, numbered)?;
    Ok(sort_values(named))
}

/// The entities of a type whose property has a value with a key from `low` to `high`, rising.
fn ids_between<T: TreeView>(
    view: &mut T,
    alloc: Global,
    kind: &Text,
    prop: &Text,
    low: &[u8],
    high: &[u8],
) -> Result<IdList, ReadError>
    requires low { IsBound low.now }
    requires high { IsHighBound high.now }
    ensures reads { ReadsRows (T.tells view.old) (T.trees view.old) (λ rows. ids_with rows kind.now prop.now (has_key_within low.now high.now)) result }
    ensures counts { CountsFaults (T.faults view.old) (T.faults view.new) result }
    ensures keeps { KeepsView T.tells T.trees T.commit T.refs T.faults view.old view.new }
{
    props_of_rows_are_read();
    let Some(kind) = number_of(view, alloc, NameKind::Kinds, kind)? else {
        return Ok(IdList::new(alloc));
    };
    let Some(prop) = number_of(view, alloc, NameKind::Props, prop)? else {
        return Ok(IdList::new(alloc));
    };
    xod_props::ids_between(view, alloc, kind, prop, low, high)
}

/// The entities of a type whose property has a value, the case of texts aside, rising.
pub fn ids_found<T: TreeView>(
    view: &mut T,
    alloc: Global,
    kind: &Text,
    prop: &Text,
    value: &Value,
) -> Result<IdList, ReadError>
    ensures reads { ReadsRows (T.tells view.old) (T.trees view.old) (λ rows. ids_with rows kind.now prop.now (has_key (key_of value.now))) result }
    ensures counts { CountsFaults (T.faults view.old) (T.faults view.new) result }
    ensures keeps { KeepsView T.tells T.trees T.commit T.refs T.faults view.old view.new }
{
    keys_are_bounds();
    value_fits(value);
    let key = value.key_bytes(alloc)?;
    ids_between(view, alloc, kind, prop, key.as_slice(), key.as_slice())
}

/// The entities of a type whose property has a value from a low one to a high one, both included and the case of texts
/// aside, rising.
pub fn ids_within<T: TreeView>(
    view: &mut T,
    alloc: Global,
    kind: &Text,
    prop: &Text,
    low: &Value,
    high: &Value,
) -> Result<IdList, ReadError>
    ensures reads { ReadsRows (T.tells view.old) (T.trees view.old)
        (λ rows. ids_with rows kind.now prop.now (has_key_within (key_of low.now) (key_of high.now))) result }
    ensures counts { CountsFaults (T.faults view.old) (T.faults view.new) result }
    ensures keeps { KeepsView T.tells T.trees T.commit T.refs T.faults view.old view.new }
{
    keys_are_bounds();
    value_fits(low);
    value_fits(high);
    let first = low.key_bytes(alloc)?;
    let last = high.key_bytes(alloc)?;
    ids_between(view, alloc, kind, prop, first.as_slice(), last.as_slice())
}

/// The key bytes with which those of all texts begin that begin with this one, the case aside.
fn front_bytes(alloc: Global, text: &[u8]) -> Result<Bytes, Memory>
    ensures { IfOk result (λ bytes. bytes ≡ 3 ∷ folded text.now) }
{
    let mut bytes = Bytes::new(alloc);
    bytes.push(3)?;
    for byte in text {
        bytes.push(byte.to_ascii_lowercase())?;
    }
    Ok(bytes)
}

/// The entities of a type whose property is a text that begins with this one, the case aside, rising.
pub fn ids_with_front<T: TreeView>(
    view: &mut T,
    alloc: Global,
    kind: &Text,
    prop: &Text,
    text: &Text,
) -> Result<IdList, ReadError>
    ensures reads { ReadsRows (T.tells view.old) (T.trees view.old) (λ rows. ids_with rows kind.now prop.now (has_front (folded text.now))) result }
    ensures counts { CountsFaults (T.faults view.old) (T.faults view.new) result }
    ensures keeps { KeepsView T.tells T.trees T.commit T.refs T.faults view.old view.new }
{
    let low = front_bytes(alloc, text.as_bytes())?;
    let mut high = front_bytes(alloc, text.as_bytes())?;
    high.push(ABOVE_TEXTS)?;
    ids_between(view, alloc, kind, prop, low.as_slice(), high.as_slice())
}

/// The entities of a type that have a property, rising.
pub fn ids_having<T: TreeView>(
    view: &mut T,
    alloc: Global,
    kind: &Text,
    prop: &Text,
) -> Result<IdList, ReadError>
    ensures reads { ReadsRows (T.tells view.old) (T.trees view.old) (λ rows. ids_with rows kind.now prop.now (λ value. true)) result }
    ensures counts { CountsFaults (T.faults view.old) (T.faults view.new) result }
    ensures keeps { KeepsView T.tells T.trees T.commit T.refs T.faults view.old view.new }
{
    ids_between(view, alloc, kind, prop, &[], &[ABOVE_KEYS])
}
