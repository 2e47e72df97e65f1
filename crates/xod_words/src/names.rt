//! Which words are names, session names and variables.
//!
//! It is handed whole words, and nothing here knows what they are for. The rules stand in `specs/Names.antt`.
ghost use Rattle.std.specs.Prelude.{◌≡◌, IsTrue, Some};
ghost use Rattle.std.specs.List.{list_all};
ghost use Rattle.xod_base.specs.Names.{is_digit, is_lower, is_name_byte, is_name_start, is_name_word, is_session_byte, is_session_word, starts_name};
ghost use Rattle.xod_base.specs.Text.{is_text};
ghost use Rattle.xod_words.specs.Names.{name_of, session_name_of, variable_of};
ghost use Rattle.xod_words.specs.Reads.{Reads};

use crate::words::Unread;
use std::alloc::Global;
use xod_base::{LONGEST_NAME, LONGEST_SESSION_NAME, Text};

pub(crate) fn is_digit(byte: u8) -> bool
    ensures { result ≡ is_digit byte }
{
    b'0' <= byte && byte <= b'9'
}

fn is_lower(byte: u8) -> bool
    ensures { result ≡ is_lower byte }
{
    b'a' <= byte && byte <= b'z'
}

fn is_name_start(byte: u8) -> bool
    ensures { result ≡ is_name_start byte }
{
    (b'A' <= byte && byte <= b'Z') || is_lower(byte) || byte == b'_'
}

fn is_name_byte(byte: u8) -> bool
    ensures { result ≡ is_name_byte byte }
{
    is_name_start(byte) || is_digit(byte)
}

fn starts_name(word: &[u8]) -> bool
    ensures { result ≡ starts_name word.now }
{
    match word.first() {
        Some(byte) => is_name_start(*byte),
        None => false,
    }
}

fn all_name_bytes(word: &[u8]) -> bool
    ensures { result ≡ list_all is_name_byte word.now }
{
    word.iter().all(|byte| is_name_byte(*byte))
}

#[tactic(auto, unfolding(xod_base::specs::Names::is_name_word))]
fn is_name_word(word: &[u8]) -> bool
    ensures { result ≡ is_name_word word.now }
{
    starts_name(word) && all_name_bytes(word) && word.len() <= LONGEST_NAME
}

fn is_session_byte(byte: u8) -> bool
    ensures { result ≡ is_session_byte byte }
{
    is_lower(byte) || is_digit(byte) || byte == b'_'
}

fn all_session_bytes(word: &[u8]) -> bool
    ensures { result ≡ list_all is_session_byte word.now }
{
    word.iter().all(|byte| is_session_byte(*byte))
}

#[tactic(auto, unfolding(xod_base::specs::Names::is_session_word))]
fn is_session_word(word: &[u8]) -> bool
    ensures { result ≡ is_session_word word.now }
{
    all_session_bytes(word) && word.len() > 0 && word.len() <= LONGEST_SESSION_NAME
}

/// The text of bytes that are one.
fn text_of(alloc: Global, bytes: &[u8]) -> Result<Text, Unread>
    requires { IsTrue (is_text bytes.now) }
    ensures { Reads result (Some bytes.now) }
{
    match Text::from_bytes(alloc, bytes)? {
        Some(text) => Ok(text),
        None => unreachable!(),
    }
}

/// The name of a type or of a property.
pub fn read_name(alloc: Global, word: &[u8]) -> Result<Text, Unread>
    ensures { Reads result (name_of word.now) }
{
    if !is_name_word(word) {
        return Err(Unread::Bad);
    }
    text_of(alloc, word)
}

/// The name of a session.
pub fn read_session_name(alloc: Global, word: &[u8]) -> Result<Text, Unread>
    ensures { Reads result (session_name_of word.now) }
{
    if !is_session_word(word) {
        return Err(Unread::Bad);
    }
    text_of(alloc, word)
}

/// The name of a variable, without its `$`.
#[tactic(auto, unfolding(crate::specs::Names::variable_of))]
pub fn read_variable(alloc: Global, word: &[u8]) -> Result<Text, Unread>
    ensures { Reads result (variable_of word.now) }
{
    match word.split_first() {
        Some((b'$', name)) => read_session_name(alloc, name),
        _ => Err(Unread::Bad),
    }
}
