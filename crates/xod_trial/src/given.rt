//! Acts as tables give them, and what is made of these.
ghost use Rattle.std.specs.Prelude.{IfOk, IsTrue};
ghost use Rattle.xod_base.specs.Rows.{has_name_length};
ghost use Rattle.xod_journal.specs.Changes.{has_names};

use std::alloc::Global;
use xod_base::{Act, EntityId, LONGEST_NAME, Memory, Text, Value};

/// The number of an entity's type, and its number within the type.
pub type Id = (u32, u32);

/// A value as a table gives it.
#[derive(Clone, Copy)]
pub enum Datum {
    Flag(bool),
    Int(i64),
    Text(&'static str),
    /// A text of so many times one byte.
    Letters(u8, usize),
}

/// An act as a table gives it.
#[derive(Clone, Copy)]
pub enum Given {
    New(&'static str),
    Delete(Id),
    Set(Id, &'static str, Datum),
    Unset(Id, &'static str),
    Link(Id, &'static str, Id),
    SetLink(Id, &'static str, Id),
    Unlink(Id, &'static str, Id),
    UnlinkAll(Id, &'static str),
}

/// The entity with these numbers.
pub fn id_of((kind, local): Id) -> EntityId {
    EntityId { kind, local }
}

/// The text of bytes. What is none is answered like want of memory, here and in the calls below.
fn text_of(alloc: Global, bytes: &[u8]) -> Result<Text, Memory> {
    match Text::from_bytes(alloc, bytes)? {
        Some(text) => Ok(text),
        None => Err(Memory),
    }
}

/// The name of bytes.
pub fn name_of(alloc: Global, bytes: &[u8]) -> Result<Text, Memory>
    ensures { IfOk result (λ name. IsTrue (has_name_length name)) }
{
    let name = text_of(alloc, bytes)?;
    if name.len() == 0 || name.len() > LONGEST_NAME {
        return Err(Memory);
    }
    Ok(name)
}

/// A text of so many times one byte.
fn letters(alloc: Global, byte: u8, count: usize) -> Result<Text, Memory> {
    let mut bytes = Vec::new(alloc);
    if bytes.resize(count, byte).is_err() {
        return Err(Memory);
    }
    text_of(alloc, &bytes)
}

/// The value that is given.
pub fn value_of(alloc: Global, datum: Datum) -> Result<Value, Memory> {
    match datum {
        Datum::Flag(flag) => Ok(Value::Flag(flag)),
        Datum::Int(number) => Ok(Value::Int(number)),
        Datum::Text(word) => Ok(Value::Text(text_of(alloc, word.as_bytes())?)),
        Datum::Letters(byte, count) => Ok(Value::Text(letters(alloc, byte, count)?)),
    }
}

/// The act that is given.
pub fn act_of(alloc: Global, given: Given) -> Result<Act, Memory>
    ensures { IfOk result (λ act. IsTrue (has_names act)) }
{
    match given {
        Given::New(word) => {
            let kind = name_of(alloc, word.as_bytes())?;
            Ok(Act::New { kind })
        }
        Given::Delete(id) => Ok(Act::Delete { id: id_of(id) }),
        Given::Set(id, word, datum) => {
            let id = id_of(id);
            let prop = name_of(alloc, word.as_bytes())?;
            let value = value_of(alloc, datum)?;
            Ok(Act::Set { id, prop, value })
        }
        Given::Unset(id, word) => {
            let id = id_of(id);
            let prop = name_of(alloc, word.as_bytes())?;
            Ok(Act::Unset { id, prop })
        }
        Given::Link(source, word, target) => {
            let (source, target) = (id_of(source), id_of(target));
            let link = name_of(alloc, word.as_bytes())?;
            Ok(Act::Link {
                source,
                link,
                target,
            })
        }
        Given::SetLink(source, word, target) => {
            let (source, target) = (id_of(source), id_of(target));
            let link = name_of(alloc, word.as_bytes())?;
            Ok(Act::SetLink {
                source,
                link,
                target,
            })
        }
        Given::Unlink(source, word, target) => {
            let (source, target) = (id_of(source), id_of(target));
            let link = name_of(alloc, word.as_bytes())?;
            Ok(Act::Unlink {
                source,
                link,
                target,
            })
        }
        Given::UnlinkAll(id, word) => {
            let source = id_of(id);
            let link = name_of(alloc, word.as_bytes())?;
            Ok(Act::UnlinkAll { source, link })
        }
    }
}
