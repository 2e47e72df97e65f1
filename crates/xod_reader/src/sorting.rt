//! Parts of an entity in the order in which they are given.
ghost use Rattle.std.specs.Prelude.{◌≡◌, not};
ghost use Rattle.std.specs.List.{filter};
ghost use Rattle.std.specs.List.Sorted.{IsPermutation, IsSorted};
ghost use Rattle.xod_base.specs.Rows.{same_id};
ghost use Rattle.xod_reader.specs.Orders.{by_end_and_name, by_name, by_name_and_end};

use crate::parts::{NamedLink, NamedLinks, NamedValue, NamedValues};
use std::cmp::Ordering;
use xod_base::{EntityId, Listed};
use xod_links::NumberedLinks;

/// How the names of two values are to one another.
fn order_of_values(value: &NamedValue, other: &NamedValue) -> Ordering
    ensures { result ≡ by_name value.now other.now }
{
    value.name.as_bytes().cmp(other.name.as_bytes())
}

/// How two links are to one another by name, then by end.
fn order_of_targets(link: &NamedLink, other: &NamedLink) -> Ordering
    ensures { result ≡ by_name_and_end link.now other.now }
{
    let names = link.name.as_bytes().cmp(other.name.as_bytes());
    names.then(link.end.cmp(&other.end))
}

/// How two links are to one another by end, then by name.
fn order_of_sources(link: &NamedLink, other: &NamedLink) -> Ordering
    ensures { result ≡ by_end_and_name link.now other.now }
{
    let names = link.name.as_bytes().cmp(other.name.as_bytes());
    link.end.cmp(&other.end).then(names)
}

/// Values by rising name.
pub fn sort_values(values: NamedValues) -> NamedValues
    ensures moved { IsPermutation values result }
    ensures sorted { IsSorted by_name result }
{
    let mut items = values.into_vec();
    items.sort_unstable_by(|a, b| order_of_values(a, b));
    Listed::from_vec(items)
}

/// Links by rising name, then end.
pub fn sort_targets(links: NamedLinks) -> NamedLinks
    ensures moved { IsPermutation links result }
    ensures sorted { IsSorted by_name_and_end result }
{
    let mut items = links.into_vec();
    items.sort_unstable_by(|a, b| order_of_targets(a, b));
    Listed::from_vec(items)
}

/// Links by rising end, then name.
pub fn sort_sources(links: NamedLinks) -> NamedLinks
    ensures moved { IsPermutation links result }
    ensures sorted { IsSorted by_end_and_name result }
{
    let mut items = links.into_vec();
    items.sort_unstable_by(|a, b| order_of_sources(a, b));
    Listed::from_vec(items)
}

/// The links whose other end is not an entity, in the same order.
pub fn without_end(links: NumberedLinks, id: EntityId) -> NumberedLinks
    ensures { result ≡ filter (λ link. not (same_id link.1 id)) links }
{
    let mut items = links.into_vec();
    items.retain(|link| link.1 != id);
    Listed::from_vec(items)
}
