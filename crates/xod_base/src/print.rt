//! The text of a query: its words, with one space between them.
//!
//! The rule stands in `specs/QueryTexts.antt`.
ghost use Rattle.std.specs.Prelude.{◌≡◌, ◌++◌, ◌∷◌, [], OnOk, decimal, is_ok, if◌then◌else◌};
ghost use Rattle.std.specs.List.{flat_map};
ghost use Rattle.xod_base.specs.QueryTexts.{direction_text, escaped_byte, id_text, query_text, quoted, value_text};

use crate::Memory;
use crate::listed::Bytes;
use crate::query::{Direction, Query};
use crate::text::Text;
use crate::value::{EntityId, Value};
use std::alloc::Global;

/// Puts a byte of a text at the end, a quote and a backslash behind a backslash.
fn push_escaped_byte(out: &mut Bytes, byte: u8) -> Result<(), Memory>
    ensures { OnOk result (out.new ≡ out.old ++ escaped_byte byte) }
{
    if byte == b'"' || byte == b'\\' {
        out.push(b'\\')?;
        out.push(byte)?;
        Ok(())
    } else {
        out.push(byte)?;
        Ok(())
    }
}

fn push_escaped(out: &mut Bytes, bytes: &[u8]) -> Result<(), Memory>
    ensures { OnOk result (out.new ≡ out.old ++ flat_map escaped_byte bytes.now) }
{
    for byte in bytes {
        push_escaped_byte(out, *byte)?;
    }
    Ok(())
}

/// Puts a text in quotes at the end.
fn push_quoted(out: &mut Bytes, text: &Text) -> Result<(), Memory>
    ensures { OnOk result (out.new ≡ out.old ++ quoted text.now) }
{
    out.push(b'"')?;
    push_escaped(out, text.as_bytes())?;
    out.push(b'"')?;
    Ok(())
}

/// Puts a value at the end: `true` or `false`, a decimal integer, or a text in quotes. After a refusal a front of it may
/// stand there.
pub fn push_value(alloc: Global, out: &mut Bytes, value: &Value) -> Result<(), Memory>
    ensures { OnOk result (out.new ≡ out.old ++ value_text value.now) }
{
    match value {
        Value::Flag(true) => out.extend(b"true"),
        Value::Flag(false) => out.extend(b"false"),
        Value::Int(number) => {
            let text = format!(in alloc; "{number}")?;
            out.extend(text.as_bytes())
        }
        Value::Text(text) => push_quoted(out, text),
    }
}

/// Puts an id at the end, as `kind-local`. After a refusal it is as it was.
pub fn push_id(alloc: Global, out: &mut Bytes, id: EntityId) -> Result<(), Memory>
    ensures { OnOk result (out.new ≡ out.old ++ id_text id) }
{
    let EntityId { kind, local } = id;
    let text = format!(in alloc; "{kind}-{local}")?;
    out.extend(text.as_bytes())
}

/// Puts a word and a name at the end.
fn push_named(out: &mut Bytes, word: &[u8], name: &Text) -> Result<(), Memory>
    ensures { OnOk result (out.new ≡ out.old ++ (word.now ++ name.now)) }
{
    out.extend(word)?;
    out.extend(name.as_bytes())?;
    Ok(())
}

/// Puts a word and two names at the end, with a space between these and one behind.
fn push_two_names(out: &mut Bytes, word: &[u8], first: &Text, second: &Text) -> Result<(), Memory>
    ensures { OnOk result (out.new
        ≡ out.old ++ (word.now ++ (first.now ++ (32 ∷ (second.now ++ 32 ∷ []))))) }
{
    push_named(out, word, first)?;
    push_named(out, b" ", second)?;
    out.push(b' ')?;
    Ok(())
}

/// Puts a number and a space at the end.
fn push_count(alloc: Global, out: &mut Bytes, count: u32) -> Result<(), Memory>
    ensures { OnOk result (out.new ≡ out.old ++ (decimal count ++ 32 ∷ [])) }
{
    let text = format!(in alloc; "{count} ")?;
    out.extend(text.as_bytes())
}

fn push_direction(out: &mut Bytes, direction: Direction) -> Result<(), Memory>
    ensures { OnOk result (out.new ≡ out.old ++ direction_text direction) }
{
    match direction {
        Direction::Up => out.extend(b"up"),
        Direction::Down => out.extend(b"down"),
    }
}

fn push_range(alloc: Global, out: &mut Bytes, low: &Value, high: &Value) -> Result<(), Memory>
    ensures { OnOk result (out.new ≡ out.old ++ (value_text low.now ++ (32 ∷ value_text high.now))) }
{
    push_value(alloc, out, low)?;
    out.push(b' ')?;
    push_value(alloc, out, high)?;
    Ok(())
}

/// Puts the property and the direction of a `sort` at the end.
fn push_sort(out: &mut Bytes, prop: &Text, direction: Direction) -> Result<(), Memory>
    ensures { OnOk result (out.new
        ≡ out.old ++ (115 ∷ 111 ∷ 114 ∷ 116 ∷ 32 ∷ (prop.now ++ (32 ∷ (direction_text direction ++ 32 ∷ []))))) }
{
    push_named(out, b"sort ", prop)?;
    out.push(b' ')?;
    push_direction(out, direction)?;
    out.push(b' ')?;
    Ok(())
}

/// Puts the text of a query at the end; after a refusal a front of it may stand there.
fn push_query(alloc: Global, out: &mut Bytes, query: &Query) -> Result<(), Memory>
    ensures { OnOk result (out.new ≡ out.old ++ query_text query.now) }
{
    match query {
        Query::All { kind } => push_named(out, b"all ", kind),
        Query::Find { kind, prop, value } => {
            push_two_names(out, b"find ", kind, prop)?;
            push_value(alloc, out, value)?;
            Ok(())
        }
        Query::Range {
            kind,
            prop,
            low,
            high,
        } => {
            push_two_names(out, b"range ", kind, prop)?;
            push_range(alloc, out, low, high)?;
            Ok(())
        }
        Query::Prefix { kind, prop, text } => {
            push_two_names(out, b"prefix ", kind, prop)?;
            push_quoted(out, text)?;
            Ok(())
        }
        Query::With { kind, prop } => {
            push_named(out, b"with ", kind)?;
            push_named(out, b" ", prop)?;
            Ok(())
        }
        Query::WithLink { kind, link } => {
            push_named(out, b"withlink ", kind)?;
            push_named(out, b" ", link)?;
            Ok(())
        }
        Query::Linked { kind, link, target } => {
            push_two_names(out, b"linked ", kind, link)?;
            push_id(alloc, out, *target)?;
            Ok(())
        }
        Query::LinksOf { source, link } => {
            out.extend(b"from ")?;
            push_id(alloc, out, *source)?;
            push_named(out, b" ", link)?;
            Ok(())
        }
        Query::Union { left, right } => {
            out.extend(b"union ")?;
            push_query(alloc, out, left.get())?;
            out.push(b' ')?;
            push_query(alloc, out, right.get())?;
            Ok(())
        }
        Query::Intersect { left, right } => {
            out.extend(b"intersect ")?;
            push_query(alloc, out, left.get())?;
            out.push(b' ')?;
            push_query(alloc, out, right.get())?;
            Ok(())
        }
        Query::Minus { left, right } => {
            out.extend(b"minus ")?;
            push_query(alloc, out, left.get())?;
            out.push(b' ')?;
            push_query(alloc, out, right.get())?;
            Ok(())
        }
        Query::Targets { link, of } => {
            push_named(out, b"targets ", link)?;
            out.push(b' ')?;
            push_query(alloc, out, of.get())?;
            Ok(())
        }
        Query::Sort {
            prop,
            direction,
            of,
        } => {
            push_sort(out, prop, *direction)?;
            push_query(alloc, out, of.get())?;
            Ok(())
        }
        Query::Skip { count, of } => {
            out.extend(b"skip ")?;
            push_count(alloc, out, *count)?;
            push_query(alloc, out, of.get())?;
            Ok(())
        }
        Query::Take { count, of } => {
            out.extend(b"take ")?;
            push_count(alloc, out, *count)?;
            push_query(alloc, out, of.get())?;
            Ok(())
        }
    }
}

/// Puts the text of a query at the end. A refusal leaves what is there as it was.
pub fn print_query(alloc: Global, out: &mut Bytes, query: &Query) -> Result<(), Memory>
    ensures { out.new ≡ (if is_ok result then out.old ++ query_text query.now else out.old) }
{
    let mut text = Bytes::new(alloc);
    push_query(alloc, &mut text, query)?;
    out.append(text)?;
    Ok(())
}
