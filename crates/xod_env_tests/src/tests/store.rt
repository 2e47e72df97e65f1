//! The commits that tell their numbers.
use std::alloc::Global;
use xod_base::{EntityId, ReadError, TreeView, Value};
use xod_env::{Env, FlushError, Flushed};
use xod_reader::{NamedValue, has, values_of};
use xod_trial::{Datum, Given, commit};
use xod_volume::Volume;

/// How many bytes each text of an entity has; with two of them, and the index of both, a log file has reached the target.
const LENGTH: usize = 1024;

/// The greatest number of a commit.
const MOST: u8 = 4;

/// The acts of a numbered commit: one more entity, with two long texts of its own.
fn acts_of(number: u8) -> [Given; 3] {
    let id = (0, u32::from(number.saturating_sub(1)));
    let text = Datum::Letters(b'a'.saturating_add(number), LENGTH);
    [
        Given::New("T"),
        Given::Set(id, "first", text),
        Given::Set(id, "second", text),
    ]
}

/// Makes the next numbered commit, up to the last one.
pub(crate) fn commit_next<V: Volume>(
    env: &mut Env<V>,
    alloc: Global,
) -> Result<Flushed, FlushError> {
    let base = env.version();
    let number = if base < u64::from(MOST) {
        base as u8 + 1
    } else {
        MOST
    };
    commit(env, alloc, &acts_of(number))
}

/// Whether a property has the text of a numbered commit.
fn is_text_of(property: &NamedValue, number: u8) -> bool {
    match &property.value {
        Value::Text(text) => { text.as_bytes() == [b'a'.saturating_add(number); LENGTH].as_slice() }
        _ => false,
    }
}

/// Whether the entity of a numbered commit is there; `None` where it is there without its texts.
fn is_made<T: TreeView>(
    alloc: Global,
    view: &mut T,
    number: u8,
) -> Result<Option<bool>, ReadError> {
    let id = EntityId {
        kind: 0,
        local: u32::from(number.saturating_sub(1)),
    };
    if !has(view, alloc, id)? {
        return Ok(Some(false));
    }
    let values = values_of(view, alloc, id)?;
    Ok(match values.as_slice() {
        [first, second] if is_text_of(first, number) && is_text_of(second, number) => Some(true),
        _ => None,
    })
}

/// The number of the numbered commit whose rows a view has; `None` where they are those of none.
pub(crate) fn number_told<T: TreeView>(
    alloc: Global,
    view: &mut T,
) -> Result<Option<u8>, ReadError> {
    let mut told = 0u8;
    for number in 1..=MOST {
        match is_made(alloc, view, number)? {
            Some(true) if told == number - 1 => told = number,
            Some(false) => {}
            _ => return Ok(None),
        }
    }
    Ok(Some(told))
}
