//! What several tests make their inputs with.
ghost use Rattle.std.specs.Prelude.{◌≡◌, IfOk, IsTrue};
ghost use Rattle.xod_base.specs.Queries.{is_named};

mod answers;
mod handles;
mod values;

use std::alloc::Global;
use std::test::Fail;
use xod_base::{EntityId, Query, Text};
use xod_words::read_query;

/// What stands before the bar in a line of a table, and behind it.
pub(crate) fn parted(line: &str) -> Result<(&str, &str), Fail> {
    match line.split_once(" | ") {
        Some(parts) => Ok(parts),
        None => Err(Fail::from("a line without a bar")),
    }
}

/// The text of bytes that are one.
pub(crate) fn text(alloc: Global, bytes: &[u8]) -> Result<Text, Fail>
    ensures { IfOk result (λ text. text ≡ bytes.now) }
{
    let text = Text::from_bytes(alloc, bytes)?.ok_or("these bytes are no text")?;
    Ok(text)
}

/// The query that words say.
pub(crate) fn query(alloc: Global, words: &str) -> Result<Query, Fail>
    ensures { IfOk result (λ query. IsTrue (is_named query)) }
{
    let query = read_query(alloc, words.as_bytes())?.ok_or("these words are no query")?;
    Ok(query)
}

pub(crate) fn id(kind: u32, local: u32) -> EntityId {
    EntityId { kind, local }
}
