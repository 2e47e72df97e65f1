//! A text: UTF-8 without control characters.
//!
//! Names and texts of properties are of this type, so no clause repeats that they are text. A copy of a text is the same
//! piece of memory once more.
ghost use Rattle.std.specs.Prelude.{◌≡◌, ◌↔◌, IsTrue, IfOk, MatchOption, false, length, nat_eq, not};
ghost use Rattle.std.specs.Cmp.Lexicographic.{pointwise};
ghost use Rattle.std.specs.List.{list_all};
ghost use Rattle.std.specs.Str.{is_utf8 as utf8_test};
ghost use Rattle.xod_base.specs.Text.{is_control as control_test, is_text};

use crate::Memory;
use std::alloc::Global;
use std::marker::Model;
use std::sync::Arc;

/// A list of bytes that are UTF-8 without U+0000 to U+001F and U+007F.
#[derive(Debug, Drop)]
pub struct Text {
    bytes: Arc<Vec<u8>>,
}

impl Model for Text {
    ghost use Rattle.std.specs.Prelude.{◌≡◌, List, ℕ, IsTrue};
    ghost use Rattle.std.specs.Arc.{arc_value};

    ghost Value = { List ℕ };

    ghost use Rattle.xod_base.specs.Text.{is_text};

    ghost view = { λ text. (arc_value text.bytes).items };

    ghost invariant = { λ text. IsTrue (is_text (arc_value text.bytes).items) };
}

/// Whether a byte is a control character by itself.
fn is_control(byte: u8) -> bool
    ensures { result ≡ control_test byte }
{
    byte < 32 || byte == 127
}

/// Whether bytes are UTF-8.
pub fn is_utf8(bytes: &[u8]) -> bool
    ensures { result ≡ utf8_test bytes.now }
{
    std::str::from_utf8(bytes).is_ok()
}

/// Whether no byte is a control character.
fn has_no_control(bytes: &[u8]) -> bool
    ensures { result ≡ list_all (λ byte. not (control_test byte)) bytes.now }
{
    bytes.iter().all(|byte| !is_control(*byte))
}

/// Whether bytes are UTF-8 without control characters.
fn is_text(bytes: &[u8]) -> bool
    ensures { result ≡ is_text bytes.now }
{
    is_utf8(bytes) && has_no_control(bytes)
}

impl Text {
    /// The text of bytes, and `None` exactly where they are no text.
    pub fn from_bytes(alloc: Global, bytes: &[u8]) -> Result<Option<Text>, Memory>
        ensures { IfOk result (λ found. MatchOption found (is_text bytes.now ≡ false) (λ text. (text ≡ bytes.now) × IsTrue (is_text bytes.now))) }
    {
        if !is_text(bytes) {
            return Ok(None);
        }
        Ok(Some(Text {
            bytes: Arc::new(alloc, Vec::from_slice(alloc, bytes)?)?,
        }))
    }

    /// The bytes.
    pub fn as_bytes(&self) -> &[u8]
        ensures bytes { result.now ≡ self.now }
        ensures text { IsTrue (is_text self.now) }
    {
        self.bytes.as_slice()
    }

    /// The number of bytes.
    pub fn len(&self) -> usize
        ensures { result ≡ length self.now }
    {
        self.bytes.len()
    }

    /// A text with the same bytes, which are not copied.
    pub fn try_clone(&self, alloc: Global) -> Result<Text, Memory>
        ensures equal { IfOk result (λ text. text ≡ self.now) }
        ensures text { IsTrue (is_text self.now) }
    {
        Ok(Text {
            bytes: Arc::try_clone(&self.bytes)?,
        })
    }

    /// Whether both have the same bytes, case included.
    pub fn same(&self, other: &Text) -> bool
        ensures equal { IsTrue result ↔ (self.now ≡ other.now) }
        ensures test { result ≡ pointwise nat_eq self.now other.now }
    {
        self.bytes.as_slice() == other.bytes.as_slice()
    }
}
