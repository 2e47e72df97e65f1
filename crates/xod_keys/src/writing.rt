//! Keys and stored values, as bytes.
ghost use Rattle.std.specs.Prelude.{◌≡◌, IfOk};
ghost use Rattle.xod_tables.specs.Keys.{
  entity_key as entity_bytes,
  index_key as index_bytes,
  kind_byte,
  link_key as link_bytes,
  name_key as name_bytes,
  next_key as next_bytes,
  number_key as number_bytes,
  property_key as property_bytes,
  stored,
};

use std::alloc::Global;
use xod_base::{Bytes, EntityId, Memory, NameKind, Text, Value};

/// The first byte of the keys of a list of names.
fn list_byte(list: NameKind) -> u8
    ensures { result ≡ kind_byte list }
{
    match list {
        NameKind::Kinds => 1,
        NameKind::Props => 2,
        NameKind::Links => 3,
    }
}

/// The key of a number in a list of names.
pub fn name_key(list: NameKind, number: u32) -> [u8; 5]
    ensures { result ≡ name_bytes list number }
{
    let place = number.to_be_bytes();
    [list_byte(list), place[0], place[1], place[2], place[3]]
}

/// The key of a name in a list of names.
pub fn number_key(alloc: Global, list: NameKind, name: &Text) -> Result<Bytes, Memory>
    ensures { IfOk result (λ key. key ≡ number_bytes list name.now) }
{
    let bytes = name.as_bytes();
    let mut key = Vec::with_capacity(alloc, bytes.len() + 1)?;
    key.push(list_byte(list))?;
    key.extend_from_slice(bytes)?;
    Ok(Bytes::from_vec(key))
}

/// The key of a type's next number.
pub fn next_key(kind: u32) -> [u8; 4]
    ensures { result ≡ next_bytes kind }
{
    kind.to_be_bytes()
}

/// The key of an entity.
pub fn entity_key(id: EntityId) -> [u8; 8]
    ensures { result ≡ entity_bytes id }
{
    let kind = id.kind.to_be_bytes();
    let local = id.local.to_be_bytes();
    [
        kind[0], kind[1], kind[2], kind[3], local[0], local[1], local[2], local[3],
    ]
}

/// The key of a property of an entity.
pub fn property_key(id: EntityId, prop: u32) -> [u8; 12]
    ensures { result ≡ property_bytes id prop }
{
    let front = entity_key(id);
    let number = prop.to_be_bytes();
    [
        front[0], front[1], front[2], front[3], front[4], front[5], front[6], front[7], number[0],
        number[1], number[2], number[3],
    ]
}

/// The key of an entity in the index, by a key of its property's value.
pub fn index_key(alloc: Global, id: EntityId, prop: u32, key: &[u8]) -> Result<Bytes, Memory>
    ensures { IfOk result (λ bytes. bytes ≡ index_bytes id prop key.now) }
{
    let mut bytes = Vec::with_capacity(alloc, key.len() + 12)?;
    bytes.extend_from_slice(&id.kind.to_be_bytes())?;
    bytes.extend_from_slice(&prop.to_be_bytes())?;
    bytes.extend_from_slice(key)?;
    bytes.extend_from_slice(&id.local.to_be_bytes())?;
    Ok(Bytes::from_vec(bytes))
}

/// The key of a link by its source; with source and target exchanged, by its target.
pub fn link_key(source: EntityId, link: u32, target: EntityId) -> [u8; 20]
    ensures { result ≡ link_bytes source link target }
{
    let front = property_key(source, link);
    let behind = entity_key(target);
    [
        front[0], front[1], front[2], front[3], front[4], front[5], front[6], front[7], front[8],
        front[9], front[10], front[11], behind[0], behind[1], behind[2], behind[3], behind[4],
        behind[5], behind[6], behind[7],
    ]
}

/// The bytes of a text as it is stored: 3 and its own bytes.
fn stored_text(alloc: Global, text: &Text) -> Result<Vec<u8>, Memory>
    ensures { IfOk result (λ bytes. bytes.items ≡ stored (Value.Text text.now)) }
{
    let own = text.as_bytes();
    let mut bytes = Vec::with_capacity(alloc, own.len() + 1)?;
    bytes.push(3)?;
    bytes.extend_from_slice(own)?;
    Ok(bytes)
}

/// The bytes of an integer as it is stored: 2 and its eight bytes.
fn stored_int(alloc: Global, number: i64) -> Result<Vec<u8>, Memory>
    ensures { IfOk result (λ bytes. bytes.items ≡ stored (Value.Int number)) }
{
    let mut bytes = Vec::with_capacity(alloc, 9)?;
    bytes.push(2)?;
    bytes.extend_from_slice(&number.to_be_bytes())?;
    Ok(bytes)
}

/// A value as it is stored.
pub fn stored_value(alloc: Global, value: &Value) -> Result<Bytes, Memory>
    ensures { IfOk result (λ bytes. bytes ≡ stored value.now) }
{
    let bytes = match value {
        Value::Flag(flag) => Vec::from_slice(alloc, &[1, u8::from(*flag)])?,
        Value::Int(number) => stored_int(alloc, *number)?,
        Value::Text(text) => stored_text(alloc, text)?,
    };
    Ok(Bytes::from_vec(bytes))
}
