//! Bytes to records.
//!
//! Each reader takes its part off the front and answers it with the bytes behind, as the definition of its name in
//! `specs/Reading.antt` does. Nothing is copied, and no part is looked at twice.
ghost use Rattle.std.specs.Prelude.{◌≡◌, ◌≤◌, ◌==◌, ℕ, length, IfSome, IfNone};
ghost use Rattle.std.specs.Option.{option_map, option_copied};
ghost use Rattle.std.specs.Int.{w16, w64};
ghost use Rattle.xod_block.specs.Records.{RecordValue, BeginsWith, rise, least_children};
ghost use Rattle.xod_block.specs.Reading.{byte_at, number_at, part_at, own_at, links_in, links_at, leaf_at, node_at, root_at, record_and_rest, record_at, are_children, are_trees};
ghost use Rattle.xod_block.specs.Seen.{seen, AreLinks, HasWholeLinks, HasSpelling};

use crate::log_record::LogRecord;
use crate::number::{first_u16, first_u64};

fn byte_at(bytes: &[u8]) -> Option<(u8, &[u8])>
    ensures { option_map (λ x. (x.0, x.1.now)) result ≡ byte_at bytes.now }
{
    match bytes {
        [] => None,
        [byte, rest @ ..] => Some((*byte, rest)),
    }
}

fn u16_at(bytes: &[u8]) -> Option<(u16, &[u8])>
    ensures { option_map (λ x. (x.0, x.1.now)) result ≡ number_at w16 bytes.now }
{
    if bytes.len() < 2 {
        return None;
    }
    let (_, rest) = bytes.split_at(2);
    Some((first_u16(bytes), rest))
}

fn u64_at(bytes: &[u8]) -> Option<(u64, &[u8])>
    ensures { option_map (λ x. (x.0, x.1.now)) result ≡ number_at w64 bytes.now }
{
    if bytes.len() < 8 {
        return None;
    }
    let (_, rest) = bytes.split_at(8);
    Some((first_u64(bytes), rest))
}

#[tactic(auto, unfolding(crate::specs::Reading::part_at))]
fn part_at(bytes: &[u8]) -> Option<(&[u8], &[u8])>
    ensures { option_map (λ x. (x.0.now, x.1.now)) result ≡ part_at bytes.now }
{
    let (length, rest) = u16_at(bytes)?;
    let length = usize::from(length);
    if rest.len() < length {
        return None;
    }
    Some(rest.split_at(length))
}

#[tactic(auto, unfolding(crate::specs::Reading::own_at))]
fn own_at(bytes: &[u8]) -> Option<(Option<&[u8]>, &[u8])>
    ensures { option_map (λ x. (option_copied x.0, x.1.now)) result ≡ own_at bytes.now }
{
    let (flag, rest) = byte_at(bytes)?;
    if flag == 0 {
        Some((None, rest))
    } else if flag == 1 {
        let (value, rest) = part_at(rest)?;
        Some((Some(value), rest))
    } else {
        None
    }
}

#[tactic(auto, unfolding(crate::specs::Reading::links_at))]
fn links_at(count: usize, bytes: &[u8]) -> Option<(&[u8], &[u8])>
    requires { count ≤ 65535 }
    ensures exactly { option_map (λ x. (links_in x.0.now, x.1.now)) result
        ≡ links_at count bytes.now }
    ensures whole { IfSome result (λ x. AreLinks x.0.now) }
{
    let length = 13 * count;
    if bytes.len() < length {
        return None;
    }
    Some(bytes.split_at(length))
}

/// Whether the numbers of links rise strictly.
fn rise(links: &[u8]) -> bool
    ensures { result ≡ rise (links_in links.now) }
{
    let mut rest = links;
    while rest.len() >= 26 {
        let number = rest[0];
        let (_, others) = rest.split_at(13);
        if number >= others[0] {
            return false;
        }
        rest = others;
    }
    true
}

fn least_children(value: Option<&[u8]>) -> usize
    ensures { result ≡ least_children (option_copied value.entry) }
{
    match value {
        None => 2,
        Some(_) => 1,
    }
}

fn are_children(value: Option<&[u8]>, count: usize, children: &[u8]) -> bool
    ensures { result ≡ are_children (option_copied value.entry) count (links_in children.now) }
{
    least_children(value) <= count && count <= 256 && rise(children)
}

fn are_trees(format: u8, count: usize, trees: &[u8]) -> bool
    ensures { result ≡ are_trees format count (links_in trees.now) }
{
    format == 1 && count <= 32 && rise(trees)
}

#[tactic(auto, unfolding(crate::specs::Reading::leaf_at))]
fn leaf_at(bytes: &[u8]) -> Option<(LogRecord<'_>, &[u8])>
    ensures exactly { option_map (λ x. (seen x.0, x.1.now)) result ≡ leaf_at bytes.now }
    ensures whole { IfSome result (λ x. HasWholeLinks x.0) }
{
    let (key, rest) = part_at(bytes)?;
    let (value, rest) = part_at(rest)?;
    Some((LogRecord::Leaf { key, value }, rest))
}

#[tactic(auto, unfolding(crate::specs::Reading::node_at))]
fn node_at(bytes: &[u8]) -> Option<(LogRecord<'_>, &[u8])>
    ensures exactly { option_map (λ x. (seen x.0, x.1.now)) result ≡ node_at bytes.now }
    ensures whole { IfSome result (λ x. HasWholeLinks x.0) }
{
    let (key, rest) = part_at(bytes)?;
    let (value, rest) = own_at(rest)?;
    let (count, rest) = u16_at(rest)?;
    let count = usize::from(count);
    let (children, rest) = links_at(count, rest)?;
    if !are_children(value, count, children) {
        return None;
    }
    Some((
        LogRecord::Node {
            key,
            value,
            children,
        },
        rest,
    ))
}

#[tactic(auto, unfolding(crate::specs::Reading::root_at))]
fn root_at(bytes: &[u8]) -> Option<(LogRecord<'_>, &[u8])>
    ensures exactly { option_map (λ x. (seen x.0, x.1.now)) result ≡ root_at bytes.now }
    ensures whole { IfSome result (λ x. HasWholeLinks x.0) }
{
    let (format, rest) = byte_at(bytes)?;
    let (commit, rest) = u64_at(rest)?;
    let (count, rest) = byte_at(rest)?;
    let count = usize::from(count);
    let (trees, rest) = links_at(count, rest)?;
    if !are_trees(format, count, trees) {
        return None;
    }
    Some((LogRecord::Root { commit, trees }, rest))
}

#[tactic(auto, unfolding(crate::specs::Reading::record_and_rest))]
fn record_and_rest(bytes: &[u8]) -> Option<(LogRecord<'_>, &[u8])>
    ensures exactly { option_map (λ x. (seen x.0, x.1.now)) result ≡ record_and_rest bytes.now }
    ensures whole { IfSome result (λ x. HasWholeLinks x.0) }
{
    let (kind, rest) = byte_at(bytes)?;
    if kind == 1 {
        leaf_at(rest)
    } else if kind == 2 {
        node_at(rest)
    } else if kind == 3 {
        root_at(rest)
    } else {
        None
    }
}

/// The record that bytes begin with, and how many of them it takes.
///
/// Any bytes may stand behind it, or in its place.
#[tactic(auto, unfolding(crate::specs::Reading::record_at))]
pub fn decode_record(bytes: &[u8]) -> Option<(LogRecord<'_>, usize)>
    ensures exactly { option_map (λ found. (seen found.0, found.1)) result ≡ record_at bytes.now }
    ensures found { IfSome result (λ found. BeginsWith bytes.now (seen found.0) found.1) }
    ensures encodable { IfSome result (λ found. HasSpelling found.0) }
    ensures none { IfNone result ((value : RecordValue) (count : ℕ)
        → BeginsWith bytes.now value count → ⊥) }
{
    let (item, rest) = record_and_rest(bytes)?;
    Some((item, bytes.len() - rest.len()))
}
