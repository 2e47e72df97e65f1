//! Whether a query can be written down, for callers that did not read it from a text.
ghost use Rattle.std.specs.Prelude.{◌≡◌, IsTrue};
ghost use Rattle.std.specs.List.{list_all};
ghost use Rattle.xod_base.specs.Names.{is_name_byte, is_name_start, is_name_word, starts_name};
ghost use Rattle.xod_base.specs.Queries.{is_id, is_named as named_test};
ghost use Rattle.xod_base.specs.Text.{is_text};
ghost use Rattle.xod_base.specs.Values.{is_value};

use xod_base::{EntityId, LONGEST_NAME, Query, Text, Value};

/// Whether a byte is an ASCII letter or `_`.
fn is_name_start(byte: u8) -> bool
    ensures { result ≡ is_name_start byte }
{
    byte.is_ascii_alphabetic() || byte == b'_'
}

/// Whether a byte is an ASCII letter, a digit or `_`.
fn is_name_byte(byte: u8) -> bool
    ensures { result ≡ is_name_byte byte }
{
    is_name_start(byte) || byte.is_ascii_digit()
}

/// Whether the first of some bytes is an ASCII letter or `_`.
fn starts_name(bytes: &[u8]) -> bool
    ensures { result ≡ starts_name bytes.now }
{
    match bytes.first() {
        Some(byte) => is_name_start(*byte),
        None => false,
    }
}

/// Whether all bytes are letters, digits or `_`.
fn all_name_bytes(bytes: &[u8]) -> bool
    ensures { result ≡ list_all is_name_byte bytes.now }
{
    bytes.iter().all(|byte| is_name_byte(*byte))
}

/// Whether a text is the name of a type, of a property or of a link.
#[tactic(auto, unfolding(xod_base::specs::Names::is_name_word))]
fn is_name(name: &Text) -> bool
    ensures { result ≡ is_name_word name.now }
{
    let bytes = name.as_bytes();
    starts_name(bytes) && all_name_bytes(bytes) && bytes.len() <= LONGEST_NAME
}

/// The numbers of an id have 32 bits.
fn ids_fit(id: EntityId)
    ensures { IsTrue (is_id id) }
{}

/// A value is one of the program's, whatever it is.
fn values_fit(value: &Value)
    ensures { IsTrue (is_value value.now) }
{
    match value {
        Value::Flag(_) => {}
        Value::Int(number) => {
            let _number = *number;
        }
        Value::Text(text) => {
            let _bytes = text.as_bytes();
        }
    }
}

/// Whether a query can be written down: its names are words of letters, digits and `_`.
pub fn is_named(query: &Query) -> bool
    ensures { result ≡ named_test query.now }
{
    match query {
        Query::All { kind } => is_name(kind),
        Query::Find { kind, prop, value } => {
            values_fit(value);
            is_name(kind) && is_name(prop)
        }
        Query::Range {
            kind,
            prop,
            low,
            high,
        } => {
            values_fit(low);
            values_fit(high);
            is_name(kind) && is_name(prop)
        }
        Query::Prefix { kind, prop, text } => {
            let _bytes = text.as_bytes();
            is_name(kind) && is_name(prop)
        }
        Query::With { kind, prop } => is_name(kind) && is_name(prop),
        Query::WithLink { kind, link } => is_name(kind) && is_name(link),
        Query::Linked { kind, link, target } => {
            ids_fit(*target);
            is_name(kind) && is_name(link)
        }
        Query::LinksOf { source, link } => {
            ids_fit(*source);
            is_name(link)
        }
        Query::Union { left, right } => is_named(left.get()) && is_named(right.get()),
        Query::Intersect { left, right } => is_named(left.get()) && is_named(right.get()),
        Query::Minus { left, right } => is_named(left.get()) && is_named(right.get()),
        Query::Targets { link, of } => is_name(link) && is_named(of.get()),
        Query::Sort { prop, of, .. } => is_name(prop) && is_named(of.get()),
        Query::Skip { count, of } => {
            let _count = *count;
            is_named(of.get())
        }
        Query::Take { count, of } => {
            let _count = *count;
            is_named(of.get())
        }
    }
}
