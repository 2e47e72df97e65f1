//! What keys and stored values say.
ghost use Rattle.std.specs.Prelude.{◌≡◌, ◌≤◌, ◌∷◌, IfOk, length, take};
ghost use Rattle.xod_tables.specs.Reading.{id_at, of_u32};
ghost use Rattle.xod_keys.specs.Pieces.{entry_read, id_read, link_read, name_read, next_read, number_read, prop_read, value_read};

use std::alloc::Global;
use xod_base::{EntityId, Memory, Text, Value};

/// The number in the first four bytes.
fn first_u32(bytes: &[u8]) -> u32
    requires { 4 ≤ length bytes.now }
    ensures { result ≡ of_u32 (take 4 bytes.now) }
{
    u32::from_be_bytes([bytes[0], bytes[1], bytes[2], bytes[3]])
}

/// The id in the first eight bytes.
fn first_id(bytes: &[u8]) -> EntityId
    requires { 8 ≤ length bytes.now }
    ensures { result ≡ id_at bytes.now }
{
    let (_, local) = bytes.split_at(4);
    EntityId {
        kind: first_u32(bytes),
        local: first_u32(local),
    }
}

/// The number that four bytes are.
pub fn read_number(bytes: &[u8]) -> Option<u32>
    ensures { result ≡ number_read bytes.now }
{
    match <[u8; 4]>::try_from(bytes) {
        Ok(four) => Some(u32::from_be_bytes(four)),
        Err(_) => None,
    }
}

/// The next number that eight bytes are.
pub fn read_next(bytes: &[u8]) -> Option<u64>
    ensures { result ≡ next_read bytes.now }
{
    match <[u8; 8]>::try_from(bytes) {
        Ok(eight) => Some(u64::from_be_bytes(eight)),
        Err(_) => None,
    }
}

/// The name that bytes are.
pub fn read_name(alloc: Global, bytes: &[u8]) -> Result<Option<Text>, Memory>
    ensures { IfOk result (λ name. name ≡ name_read bytes.now) }
{
    let name = Text::from_bytes(alloc, bytes)?;
    Ok(name)
}

/// The entity of a key among the entities.
pub fn read_id(key: &[u8]) -> Option<EntityId>
    ensures { result ≡ id_read key.now }
{
    if key.len() != 8 {
        return None;
    }
    Some(first_id(key))
}

/// The property's number in a key among the properties.
pub fn read_prop(key: &[u8]) -> Option<u32>
    ensures { result ≡ prop_read key.now }
{
    if key.len() != 12 {
        return None;
    }
    let (_, number) = key.split_at(8);
    Some(first_u32(number))
}

/// The link's number and the entity at the end of a key among the links.
pub fn read_link(key: &[u8]) -> Option<(u32, EntityId)>
    ensures { result ≡ link_read key.now }
{
    if key.len() != 20 {
        return None;
    }
    let (_, rest) = key.split_at(8);
    let (_, end) = key.split_at(12);
    Some((first_u32(rest), first_id(end)))
}

/// The entity of a key of the index.
pub fn read_entry(key: &[u8]) -> Option<EntityId>
    ensures { result ≡ entry_read key.now }
{
    if key.len() < 12 {
        return None;
    }
    let (_, local) = key.split_at(key.len() - 4);
    Some(EntityId {
        kind: first_u32(key),
        local: first_u32(local),
    })
}

/// The flag that is stored as 1 and these bytes.
fn read_flag(rest: &[u8]) -> Option<Value>
    ensures { result ≡ value_read (1 ∷ rest.now) }
{
    match rest {
        [0] => Some(Value::Flag(false)),
        [1] => Some(Value::Flag(true)),
        _ => None,
    }
}

/// The integer that is stored as 2 and these bytes.
fn read_int(rest: &[u8]) -> Option<Value>
    ensures { result ≡ value_read (2 ∷ rest.now) }
{
    let number = read_next(rest)?;
    Some(Value::Int(number.cast_signed()))
}

/// The text that is stored as 3 and these bytes.
fn read_text(alloc: Global, rest: &[u8]) -> Result<Option<Value>, Memory>
    ensures { IfOk result (λ value. value ≡ value_read (3 ∷ rest.now)) }
{
    match read_name(alloc, rest)? {
        None => Ok(None),
        Some(text) => Ok(Some(Value::Text(text))),
    }
}

/// The value that stored bytes are.
pub fn read_value(alloc: Global, bytes: &[u8]) -> Result<Option<Value>, Memory>
    ensures { IfOk result (λ value. value ≡ value_read bytes.now) }
{
    match bytes.split_first() {
        None => Ok(None),
        Some((1, rest)) => Ok(read_flag(rest)),
        Some((2, rest)) => Ok(read_int(rest)),
        Some((3, rest)) => read_text(alloc, rest),
        Some((_, _)) => Ok(None),
    }
}
