//! What an entry of a tree is tested for, by what other trees have.
ghost use Rattle.std.specs.Prelude.{◌≡◌, ◌≤◌, ◌&&◌, IfOk, length, nat_le, nat_lt, take};
ghost use Rattle.xod_base.specs.Rows.{is_drawn as drawn_test, text_length as length_of_text};
ghost use Rattle.xod_base.specs.Values.{key_of};
ghost use Rattle.xod_tables.specs.Keys.{back_key, index_key as index_bytes};
ghost use Rattle.xod_tables.specs.Reading.{id_at, of_u32, tree_at};
ghost use Rattle.xod_tables.specs.declared.trees.TheConstants.{ENTITIES as ENTITIES_TREE, INDEX as INDEX_TREE, BACK as BACK_TREE};
ghost use Rattle.xod_keys.specs.Pieces.{value_read};
ghost use Rattle.xod_audit.specs.Checks.{test_of};
ghost use Rattle.xod_audit.specs.Looks.{Looks};
ghost use Rattle.xod_audit.specs.Tests.{entity_in, holds, is_entity, is_link, is_link_entry, is_property, is_property_entry, link_in, prop_in};

use crate::look::{is_there, stands};
use std::alloc::Global;
use xod_base::{Bytes, EntityId, LONGEST_TEXT, Listed, Memory, Pair, ReadError, TreeView, Value};
use xod_keys::{index_key, link_key, read_value};
use xod_tables::{BACK, INDEX};

/// What the entries of a tree are tested for.
#[derive(Debug, Drop)]
pub enum Check {
    /// Nothing: they are counted alone.
    Any,
    /// Each is that of an entity, by the next numbers of the types.
    Entity(Listed<u64>),
    /// Each is that of a property, by how many are listed.
    Property(usize),
    /// Each is that of a link, by how many are listed.
    Link(usize),
}

/// The number in the first four bytes.
fn first_u32(bytes: &[u8]) -> u32
    requires { 4 ≤ length bytes.now }
    ensures { result ≡ of_u32 (take 4 bytes.now) }
{
    u32::from_be_bytes([bytes[0], bytes[1], bytes[2], bytes[3]])
}

/// The id in the first eight bytes.
fn first_id(bytes: &[u8]) -> EntityId
    requires { 8 ≤ length bytes.now }
    ensures { result ≡ id_at bytes.now }
{
    let (_, local) = bytes.split_at(4);
    EntityId {
        kind: first_u32(bytes),
        local: first_u32(local),
    }
}

/// The entity in a key of the tree of entities.
fn id_of(key: &[u8]) -> Option<EntityId>
    ensures { result ≡ entity_in key.now }
{
    if key.len() != 8 {
        return None;
    }
    Some(first_id(key))
}

/// The entity and the property's number in a key of the tree of properties.
fn prop_of(key: &[u8]) -> Option<(EntityId, u32)>
    ensures { result ≡ prop_in key.now }
{
    if key.len() != 12 {
        return None;
    }
    let (_, number) = key.split_at(8);
    Some((first_id(key), first_u32(number)))
}

/// The source, the link's number and the target in a key of a tree of links.
fn link_of(key: &[u8]) -> Option<(EntityId, (u32, EntityId))>
    ensures { result ≡ link_in key.now }
{
    if key.len() != 20 {
        return None;
    }
    let (_, number) = key.split_at(8);
    let (_, target) = key.split_at(12);
    Some((first_id(key), (first_u32(number), first_id(target))))
}

/// Whether an id's local number is below the next one of its type.
fn is_drawn(nexts: &[u64], id: EntityId) -> bool
    ensures { result ≡ drawn_test nexts.now id }
{
    let kind = id.kind as usize;
    if kind >= nexts.len() {
        return false;
    }
    u64::from(id.local) < nexts[kind]
}

/// Whether an entry is that of an entity that was drawn.
fn passes_entity(nexts: &[u64], pair: &Pair) -> bool
    ensures { result ≡ is_entity nexts.now (pair.now.key, pair.now.value) }
{
    match id_of(pair.key.as_slice()) {
        None => false,
        Some(id) => is_drawn(nexts, id) && pair.value.is_empty(),
    }
}

/// The bytes of a value that count against the limit.
fn text_length(value: &Value) -> u64
    ensures { result ≡ length_of_text value.now }
{
    match value {
        Value::Flag(_) => 0,
        Value::Int(_) => 0,
        Value::Text(text) => text.len() as u64,
    }
}

/// The key in the index of a property's value.
fn indexed_key(alloc: Global, id: EntityId, prop: u32, value: &Value) -> Result<Bytes, Memory>
    ensures { IfOk result (λ key. key ≡ index_bytes id prop (key_of value.now)) }
{
    let key = value.key_bytes(alloc)?;
    let bytes = index_key(alloc, id, prop, key.as_slice())?;
    Ok(bytes)
}

/// Whether the trees have all that belongs to a property.
fn has_property<T: TreeView>(
    view: &mut T,
    alloc: Global,
    count: usize,
    id: EntityId,
    prop: u32,
    value: &Value,
) -> Result<bool, ReadError>
    ensures looks { Looks T.tells T.trees T.commit T.refs T.faults view.old view.new
        (λ trees. is_property count (tree_at trees ENTITIES_TREE) (tree_at trees INDEX_TREE) (id, prop) value.now) result }
{
    if prop as usize >= count || text_length(value) > LONGEST_TEXT {
        return Ok(false);
    }
    if !is_there(view, alloc, id)? {
        return Ok(false);
    }
    let key = indexed_key(alloc, id, prop, value)?;
    let found = stands(view, alloc, INDEX, key.as_slice(), &[])?;
    Ok(found)
}

/// Whether bytes are a value that a property may have.
fn passes_value<T: TreeView>(
    view: &mut T,
    alloc: Global,
    count: usize,
    id: EntityId,
    prop: u32,
    bytes: &[u8],
) -> Result<bool, ReadError>
    ensures looks { Looks T.tells T.trees T.commit T.refs T.faults view.old view.new
        (λ trees. holds (is_property count (tree_at trees ENTITIES_TREE) (tree_at trees INDEX_TREE) (id, prop)) (value_read bytes.now)) result }
{
    match read_value(alloc, bytes)? {
        None => Ok(false),
        Some(value) => {
            let found = has_property(view, alloc, count, id, prop, &value)?;
            Ok(found)
        }
    }
}

/// Whether an entry is that of a property.
fn passes_property<T: TreeView>(
    view: &mut T,
    alloc: Global,
    count: usize,
    pair: &Pair,
) -> Result<bool, ReadError>
    ensures looks { Looks T.tells T.trees T.commit T.refs T.faults view.old view.new
        (λ trees. is_property_entry count (tree_at trees ENTITIES_TREE) (tree_at trees INDEX_TREE) (pair.now.key, pair.now.value)) result }
{
    match prop_of(pair.key.as_slice()) {
        None => Ok(false),
        Some((id, prop)) => {
            let found = passes_value(view, alloc, count, id, prop, pair.value.as_slice())?;
            Ok(found)
        }
    }
}

/// Whether the trees have all that belongs to a link.
fn has_link<T: TreeView>(
    view: &mut T,
    alloc: Global,
    count: usize,
    source: EntityId,
    number: u32,
    target: EntityId,
) -> Result<bool, ReadError>
    ensures looks { Looks T.tells T.trees T.commit T.refs T.faults view.old view.new
        (λ trees. is_link count (tree_at trees ENTITIES_TREE) (tree_at trees BACK_TREE) (source, (number, target))) result }
{
    if number as usize >= count {
        return Ok(false);
    }
    if !is_there(view, alloc, source)? {
        return Ok(false);
    }
    if !is_there(view, alloc, target)? {
        return Ok(false);
    }
    let found = stands(view, alloc, BACK, &link_key(target, number, source), &[])?;
    Ok(found)
}

/// Whether an entry is that of a link.
fn passes_link<T: TreeView>(
    view: &mut T,
    alloc: Global,
    count: usize,
    pair: &Pair,
) -> Result<bool, ReadError>
    ensures looks { Looks T.tells T.trees T.commit T.refs T.faults view.old view.new
        (λ trees. is_link_entry count (tree_at trees ENTITIES_TREE) (tree_at trees BACK_TREE) (pair.now.key, pair.now.value)) result }
{
    match link_of(pair.key.as_slice()) {
        None => Ok(false),
        Some((source, (number, target))) => {
            if !pair.value.is_empty() {
                return Ok(false);
            }
            let found = has_link(view, alloc, count, source, number, target)?;
            Ok(found)
        }
    }
}

/// Whether an entry passes.
pub(crate) fn passes<T: TreeView>(
    view: &mut T,
    alloc: Global,
    check: &Check,
    pair: &Pair,
) -> Result<bool, ReadError>
    ensures looks { Looks T.tells T.trees T.commit T.refs T.faults view.old view.new
        (λ trees. test_of check.now trees (pair.now.key, pair.now.value)) result }
{
    match check {
        Check::Any => Ok(true),
        Check::Entity(nexts) => Ok(passes_entity(nexts.as_slice(), pair)),
        Check::Property(count) => {
            let found = passes_property(view, alloc, *count, pair)?;
            Ok(found)
        }
        Check::Link(count) => {
            let found = passes_link(view, alloc, *count, pair)?;
            Ok(found)
        }
    }
}
