//! Parts of an entity that were read with numbers, and get the names of these.
ghost use Rattle.xod_base.specs.Views.{CountsFaults, KeepsView};
ghost use Rattle.xod_reader.specs.Naming.{NamesEach, named_link, named_value};

use crate::parts::{NamedLink, NamedLinks, NamedValue, NamedValues};
use crate::slot::name_of;
use std::alloc::Global;
use xod_base::{Listed, NameKind, Place, ReadError, TreeView};
use xod_links::NumberedLinks;
use xod_props::NumberedValues;

/// What is answered where a number has no name.
const NAMELESS: ReadError = ReadError::Damaged(Place { file: 0, at: 0 });

/// Values, each with the name of its number, in the same order. Bytes are damaged where a number has no name.
pub fn name_values<T: TreeView>(
    view: &mut T,
    alloc: Global,
    values: NumberedValues,
) -> Result<NamedValues, ReadError>
    ensures reads { NamesEach (T.tells view.old) (T.trees view.old) (λ rows. rows.props) named_value values result }
    ensures counts { CountsFaults (T.faults view.old) (T.faults view.new) result }
    ensures keeps { KeepsView T.tells T.trees T.commit T.refs T.faults view.old view.new }
{
    let mut named = Listed::new(alloc);
    for (number, value) in values.into_vec() {
        match name_of(view, alloc, NameKind::Props, number)? {
            Some(name) => named.push(NamedValue {
                number,
                name,
                value,
            })?,
            None => return Err(NAMELESS),
        }
    }
    Ok(named)
}

/// Links, each with the name of its number, in the same order. Bytes are damaged where a number has no name.
pub fn name_links<T: TreeView>(
    view: &mut T,
    alloc: Global,
    links: NumberedLinks,
) -> Result<NamedLinks, ReadError>
    ensures reads { NamesEach (T.tells view.old) (T.trees view.old) (λ rows. rows.links) named_link links result }
    ensures counts { CountsFaults (T.faults view.old) (T.faults view.new) result }
    ensures keeps { KeepsView T.tells T.trees T.commit T.refs T.faults view.old view.new }
{
    let mut named = Listed::new(alloc);
    for (number, end) in links.into_vec() {
        match name_of(view, alloc, NameKind::Links, number)? {
            Some(name) => named.push(NamedLink { number, name, end })?,
            None => return Err(NAMELESS),
        }
    }
    Ok(named)
}
