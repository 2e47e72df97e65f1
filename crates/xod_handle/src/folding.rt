//! Values with `A` to `Z` as `a` to `z`.
ghost use Rattle.std.specs.Prelude.{◌≡◌, IfOk};
ghost use Rattle.xod_base.specs.Values.{folded};
ghost use Rattle.xod_handle.specs.Forms.{folded_value as value_folded};

use std::alloc::Global;
use xod_base::{Memory, Text, Value};

/// A text folded.
pub fn folded_text(alloc: Global, text: &Text) -> Result<Text, Memory>
    ensures { IfOk result (λ other. other ≡ folded text.now) }
{
    let lower = text.as_bytes().to_ascii_lowercase(alloc)?;
    match Text::from_bytes(alloc, &lower)? {
        Some(other) => Ok(other),
        None => unreachable!(),
    }
}

/// A text folded, and any other value as it is.
pub fn folded_value(alloc: Global, value: &Value) -> Result<Value, Memory>
    ensures { IfOk result (λ other. other ≡ value_folded value.now) }
{
    match value {
        Value::Flag(flag) => Ok(Value::Flag(*flag)),
        Value::Int(number) => Ok(Value::Int(*number)),
        Value::Text(text) => Ok(Value::Text(folded_text(alloc, text)?)),
    }
}
