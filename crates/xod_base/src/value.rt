//! Entities' ids and the values of properties, with the key bytes by which an index finds a value.
//!
//! The order of key bytes is the order of values; both stand in `specs/Values.antt`.
ghost use Rattle.std.specs.Prelude.{◌≡◌, ◌↔◌, ◌++◌, IsTrue, IfOk, OnOk};
ghost use Rattle.xod_base.specs.Values.{biased, folded, folded_byte as byte_folded, is_value, key_of, same_value};

use crate::Memory;
use crate::listed::Bytes;
use crate::text::Text;
use std::alloc::Global;

/// The id of an entity: the number of its type, and its number within the type. Printed as `kind-local`.
#[derive(Clone, Copy, Debug, PartialEq, Eq, PartialOrd, Ord)]
pub struct EntityId {
    pub kind: u32,
    pub local: u32,
}

/// The value of a property.
#[derive(Debug, Drop)]
pub enum Value {
    Flag(bool),
    Int(i64),
    Text(Text),
}

pub(crate) const SIGN_BIT: u64 = 1 << 63;

/// An integer with its highest bit turned over, so that numbers rise as integers do.
fn biased(number: i64) -> u64
    ensures { result ≡ biased number }
{
    if number >= 0 {
        SIGN_BIT + number as u64
    } else {
        SIGN_BIT - number.unsigned_abs()
    }
}

/// A byte with `A` to `Z` as `a` to `z`.
fn folded_byte(byte: u8) -> u8
    ensures { result ≡ byte_folded byte }
{
    byte.to_ascii_lowercase()
}

/// Puts folded bytes at the end.
fn push_folded(key: &mut Vec<u8>, bytes: &[u8]) -> Result<(), Memory>
    ensures { OnOk result (key.new.items ≡ key.old.items ++ folded bytes.now) }
{
    for byte in bytes {
        key.push(folded_byte(*byte))?;
    }
    Ok(())
}

/// The key bytes of a text: 3, the folded bytes, 0.
fn text_key(alloc: Global, text: &Text) -> Result<Vec<u8>, Memory>
    ensures { IfOk result (λ key. key.items ≡ key_of (Value.Text text.now)) }
{
    let mut key = Vec::new(alloc);
    key.push(3)?;
    push_folded(&mut key, text.as_bytes())?;
    key.push(0)?;
    Ok(key)
}

/// The key bytes of an integer: 2, and its eight bytes with the highest bit turned over.
fn int_key(alloc: Global, number: i64) -> Result<Vec<u8>, Memory>
    ensures { IfOk result (λ key. key.items ≡ key_of (Value.Int number)) }
{
    let mut key = Vec::new(alloc);
    key.push(2)?;
    key.extend_from_slice(&biased(number).to_be_bytes())?;
    Ok(key)
}

impl Value {
    /// The key bytes of the value.
    pub fn key_bytes(&self, alloc: Global) -> Result<Bytes, Memory>
        ensures { IfOk result (λ key. key ≡ key_of self.now) }
    {
        let key = match self {
            Value::Flag(flag) => Vec::from_slice(alloc, &[1, u8::from(*flag)])?,
            Value::Int(number) => int_key(alloc, *number)?,
            Value::Text(text) => text_key(alloc, text)?,
        };
        Ok(Bytes::from_vec(key))
    }

    /// Whether both are the same value, the case of texts included.
    pub fn same(&self, other: &Value) -> bool
        ensures equal { IsTrue result ↔ (self.now ≡ other.now) }
        ensures test { result ≡ same_value self.now other.now }
    {
        match (self, other) {
            (Value::Flag(a), Value::Flag(b)) => a == b,
            (Value::Int(a), Value::Int(b)) => a == b,
            (Value::Text(a), Value::Text(b)) => a.same(b),
            _ => false,
        }
    }

    /// The same value once more.
    pub fn try_clone(&self, alloc: Global) -> Result<Value, Memory>
        ensures equal { IfOk result (λ value. value ≡ self.now) }
        ensures valid { IsTrue (is_value self.now) }
    {
        match self {
            Value::Flag(flag) => Ok(Value::Flag(*flag)),
            Value::Int(number) => Ok(Value::Int(*number)),
            Value::Text(text) => Ok(Value::Text(text.try_clone(alloc)?)),
        }
    }
}
