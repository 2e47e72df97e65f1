//! Texts, values and entities, each one word.
//!
//! It is handed whole words, and nothing here knows what they are for. The rules stand in `specs/Values.antt`.
ghost use Rattle.std.specs.Prelude.{◌≡◌, ◌∷◌, List, MatchResult, None, Some, ℕ, false, if◌then◌else◌};
ghost use Rattle.xod_words.specs.Reads.{Reads};
ghost use Rattle.xod_words.specs.Values.{ahead, ent_of, is_special, text_of, unescaped, value_of, when_text};

use crate::draft::Ent;
use crate::names::read_variable;
use crate::numbers::{read_id, read_integer};
use crate::words::{Unread, begins_with, is_meant, is_word};
use std::alloc::Global;
use xod_base::{Bytes, Text, Value};

/// Whether a byte stands in a text behind a `\` alone.
fn is_special(byte: u8) -> bool
    ensures { result ≡ is_special byte }
{
    byte == b'"' || byte == b'\\'
}

/// Takes one byte of a text that is no closing quote, and answers whether it is a `\` with its meaning.
#[tactic(auto, unfolding(crate::specs::Values::unescaped))]
fn take_byte(text: &mut Bytes, escaped: bool, byte: u8) -> Result<bool, Unread>
    requires { escaped ≡ false → ¬ (byte ≡ 34) }
    ensures { MatchResult result
        (λ next. (rest : List ℕ) → ahead text.old (unescaped escaped (byte ∷ rest))
        ≡ ahead text.new (unescaped next rest))
        (λ unread. unread ≡ Unread.Bad → (rest : List ℕ) → unescaped escaped (byte ∷ rest) ≡ None) }
{
    if escaped {
        if !is_special(byte) {
            return Err(Unread::Bad);
        }
        text.push(byte)?;
        Ok(false)
    } else if byte == b'\\' {
        Ok(true)
    } else {
        text.push(byte)?;
        Ok(false)
    }
}

/// The end of a text at its closing quote, behind which nothing may stand.
fn closed(text: Bytes, is_last: bool) -> Result<Bytes, Unread>
    ensures { Reads result (if is_last then Some text else None) }
{
    if is_last { Ok(text) } else { Err(Unread::Bad) }
}

/// The bytes of a text, from those behind its opening quote.
fn unescaped(alloc: Global, bytes: &[u8]) -> Result<Bytes, Unread>
    ensures { Reads result (unescaped false bytes.now) }
{
    let mut text = Bytes::new(alloc);
    let mut escaped = false;
    let mut left = bytes.len();
    for byte in bytes {
        left -= 1;
        if is_meant(escaped, *byte, b'"') {
            return closed(text, left == 0);
        }
        escaped = take_byte(&mut text, escaped, *byte)?;
    }
    Err(Unread::Bad)
}

/// The text of bytes, where they are one.
fn text(alloc: Global, bytes: &[u8]) -> Result<Text, Unread>
    ensures { Reads result (when_text bytes.now) }
{
    match Text::from_bytes(alloc, bytes)? {
        Some(text) => Ok(text),
        None => Err(Unread::Bad),
    }
}

/// The text of a word.
#[tactic(auto, unfolding(crate::specs::Values::text_of))]
pub fn read_text(alloc: Global, word: &[u8]) -> Result<Text, Unread>
    ensures { Reads result (text_of word.now) }
{
    match word.split_first() {
        Some((b'"', rest)) => {
            let bytes = unescaped(alloc, rest)?;
            text(alloc, bytes.as_slice())
        }
        _ => Err(Unread::Bad),
    }
}

/// The value of a word.
#[tactic(auto, unfolding(crate::specs::Values::value_of))]
pub fn read_value(alloc: Global, word: &[u8]) -> Result<Value, Unread>
    ensures { Reads result (value_of word.now) }
{
    if is_word(word, b"true") {
        Ok(Value::Flag(true))
    } else if is_word(word, b"false") {
        Ok(Value::Flag(false))
    } else if begins_with(b'"', word) {
        let text = read_text(alloc, word)?;
        Ok(Value::Text(text))
    } else {
        let number = read_integer(word)?;
        Ok(Value::Int(number))
    }
}

/// The entity of a word.
#[tactic(auto, unfolding(crate::specs::Values::ent_of))]
pub fn read_ent(alloc: Global, word: &[u8]) -> Result<Ent, Unread>
    ensures { Reads result (ent_of word.now) }
{
    if begins_with(b'$', word) {
        let var = read_variable(alloc, word)?;
        Ok(Ent::Var(var))
    } else {
        let id = read_id(word)?;
        Ok(Ent::Id(id))
    }
}
