//! What the ids of a type are tested by, for the forms of a query that have no parts.
//!
//! What passes stands in `specs.Passing.antt`. Keys and folded texts of the query are made once, and not for each id.
ghost use Rattle.std.specs.Prelude.{◌≡◌, IfOk, map};
ghost use Rattle.std.specs.List.{list_any};
ghost use Rattle.xod_base.specs.Evaluation.{is_link_of};
ghost use Rattle.xod_base.specs.Values.{folded as folded_bytes, has_front as front_test, is_within as within_test};
ghost use Rattle.xod_model.specs.Entries.{join_key, rows_of};
ghost use Rattle.xod_model.specs.Passing.{passes as passes_test, value_passes as value_test};

use crate::items::Join;
use crate::lists::Lists;
use crate::removal::is_of;
use std::alloc::Global;
use xod_base::{Bytes, EntityId, Memory, Text, Value};

/// A test of a property's value.
#[derive(Drop)]
pub enum ValueTest {
    /// It has this key.
    Key { key: Bytes },
    /// Its key is neither below the low one nor above the high one.
    Within { low: Bytes, high: Bytes },
    /// It is a text that begins with these bytes, folded itself.
    Front { front: Vec<u8> },
    /// It is there.
    Any,
}

/// A test of an entity.
#[derive(Drop)]
pub enum Test<'a> {
    /// Its property passes a test.
    Prop { prop: &'a Text, test: ValueTest },
    /// It has a link by this name.
    Link { link: &'a Text },
    /// It has a link by this name to this target.
    LinkTo { link: &'a Text, target: EntityId },
}

/// Bytes with `A` to `Z` as `a` to `z`.
pub fn folded(alloc: Global, bytes: &[u8]) -> Result<Vec<u8>, Memory>
    ensures { IfOk result (λ folded. folded.items ≡ folded_bytes bytes.now) }
{
    let folded = bytes
        .iter()
        .map(|byte| byte.to_ascii_lowercase())
        .collect(alloc)?;
    Ok(folded)
}

/// Whether a key is neither below the low one nor above the high one.
fn is_within(low: &[u8], high: &[u8], key: &[u8]) -> bool
    ensures { result ≡ within_test low.now high.now key.now }
{
    !low.cmp(key).is_gt() && !key.cmp(high).is_gt()
}

/// Whether a value is a text that begins with folded bytes, folded itself.
fn has_front(alloc: Global, front: &[u8], value: &Value) -> Result<bool, Memory>
    ensures { IfOk result (λ has. has ≡ front_test front.now value.now) }
{
    match value {
        Value::Text(text) => {
            let text = folded(alloc, text.as_bytes())?;
            Ok(text.as_slice().starts_with(front))
        }
        _ => Ok(false),
    }
}

impl ValueTest {
    /// Whether a value passes.
    fn passes(&self, alloc: Global, value: &Value) -> Result<bool, Memory>
        ensures { IfOk result (λ has. has ≡ value_test self.now value.now) }
    {
        match self {
            ValueTest::Key { key } => {
                let has = value.key_bytes(alloc)?;
                Ok(key.same(&has))
            }
            ValueTest::Within { low, high } => {
                let key = value.key_bytes(alloc)?;
                Ok(is_within(low.as_slice(), high.as_slice(), key.as_slice()))
            }
            ValueTest::Front { front } => has_front(alloc, front, value),
            ValueTest::Any => Ok(true),
        }
    }
}

/// Whether an entity has a link by a name.
fn has_link(joins: &[Join], link: &Text, source: EntityId) -> bool
    ensures { result ≡ list_any (is_link_of source link.now) (map join_key joins.now) }
{
    for join in joins {
        if is_of(join, source, link) {
            return true;
        }
    }
    false
}

impl Lists {
    /// Whether an entity passes.
    pub fn passes(&self, alloc: Global, test: &Test<'_>, id: EntityId) -> Result<bool, Memory>
        ensures { IfOk result (λ has. has ≡ passes_test (rows_of self.now) test.now id) }
    {
        match test {
            Test::Prop { prop, test } => match self.value(id, prop) {
                None => Ok(false),
                Some(value) => {
                    let has = test.passes(alloc, value)?;
                    Ok(has)
                }
            },
            Test::Link { link } => Ok(has_link(self.joins(), link, id)),
            Test::LinkTo { link, target } => Ok(self.has_join(id, link, *target)),
        }
    }
}
