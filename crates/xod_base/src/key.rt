//! Values read back from key bytes.
//!
//! The inverse of `Value::key_bytes`: a key shows where it ends, so it is read off the front of bytes. What a front must be
//! stands in `specs/KeyTexts.antt`. Flags and integers come back as they were, texts with `A` to `Z` as `a` to `z`.
ghost use Rattle.std.specs.Prelude.{◌≡◌, ◌≤◌, ◌∷◌, ◌==◌, ◌↔◌, IsTrue, IfOk, IfSome, None, length};
ghost use Rattle.std.specs.List.{position_or_len};
ghost use Rattle.xod_base.specs.KeyTexts.{FindsKey, HasNoKey, ReadsKey};
ghost use Rattle.xod_base.specs.Values.{biased, folded};

use crate::Memory;
use crate::text::Text;
use crate::value::{SIGN_BIT, Value};
use std::alloc::Global;

/// The integer that a number is, once its highest bit is turned back.
fn unbiased(number: u64) -> i64
    ensures { biased result ≡ number }
{
    if number >= SIGN_BIT {
        (number - SIGN_BIT) as i64
    } else {
        i64::MIN + number as i64
    }
}

/// The flag behind a 1, and the length of the key.
fn read_flag(rest: &[u8]) -> Option<(Value, usize)>
    ensures { FindsKey (1 ∷ rest.now) result }
{
    match rest.split_first() {
        Some((0, _)) => Some((Value::Flag(false), 2)),
        Some((1, _)) => Some((Value::Flag(true), 2)),
        _ => None,
    }
}

/// The integer in the eight bytes behind a 2, and the length of the key.
fn read_int(rest: &[u8]) -> Option<(Value, usize)>
    ensures { FindsKey (2 ∷ rest.now) result }
{
    if rest.len() < 8 {
        return None;
    }
    let (front, _) = rest.split_at(8);
    match <[u8; 8]>::try_from(front) {
        Ok(bytes) => Some((Value::Int(unbiased(u64::from_be_bytes(bytes))), 9)),
        Err(_) => None,
    }
}

/// How many bytes stand before the first 0.
fn text_len(bytes: &[u8]) -> usize
    ensures exact { result ≡ position_or_len (λ byte. byte == 0) bytes.now }
    ensures within { result ≤ length bytes.now }
{
    bytes.iter().take_while(|byte| **byte != 0).count()
}

/// Whether no byte is one of `A` to `Z`.
fn is_folded(bytes: &[u8]) -> bool
    ensures { IsTrue result ↔ (folded bytes.now ≡ bytes.now) }
{
    bytes.iter().all(|byte| !byte.is_ascii_uppercase())
}

/// The text behind a 3 and before the first 0, and the length of the key.
fn read_text(alloc: Global, rest: &[u8]) -> Result<Option<(Value, usize)>, Memory>
    ensures { IfOk result (λ found. FindsKey (3 ∷ rest.now) found) }
{
    let (bytes, behind) = rest.split_at(text_len(rest));
    if behind.is_empty() || !is_folded(bytes) {
        return Ok(None);
    }
    match Text::from_bytes(alloc, bytes)? {
        Some(text) => Ok(Some((Value::Text(text), bytes.len() + 2))),
        None => Ok(None),
    }
}

impl Value {
    /// The folded value whose key stands at the front of bytes, and the length of that key. `None` exactly where no front
    /// of the bytes is a key.
    pub fn read_key(alloc: Global, bytes: &[u8]) -> Result<Option<(Value, usize)>, Memory>
        ensures found { IfOk result (λ found. IfSome found (λ read. ReadsKey bytes.now read.0 read.1)) }
        ensures none { IfOk result (λ found. found ≡ None → HasNoKey bytes.now) }
    {
        match bytes.split_first() {
            Some((1, rest)) => Ok(read_flag(rest)),
            Some((2, rest)) => Ok(read_int(rest)),
            Some((3, rest)) => read_text(alloc, rest),
            _ => Ok(None),
        }
    }
}
