//! One step of a look-up: where the bytes at an address send a key.
ghost use Rattle.std.specs.Prelude.{◌≡◌};
ghost use Rattle.xod_block.specs.Addresses.{number_of};
ghost use Rattle.xod_block.specs.Reading.{record_in};
ghost use Rattle.xod_trie.specs.Ways.{IsWay};

use crate::branch::branch_in;
use crate::child::{behind, child_in};
use xod_block::Address;

/// Where a look-up goes on.
#[derive(Clone, Copy, Debug)]
pub enum Way<'b, 'k> {
    /// No further: the key has this value, or none.
    Ends(Option<&'b [u8]>),
    /// At a child, with what is left of the key.
    Goes(Address, &'k [u8]),
    /// The bytes begin with no leaf or node, or name a child that is not below it.
    Damaged,
}

/// Where the record that bytes begin with sends what is left of a key.
pub fn way_at<'b, 'k>(at: Address, bytes: &'b [u8], rest: &'k [u8]) -> Way<'b, 'k>
    ensures { IsWay (record_in bytes.now) (number_of at) rest.now result }
{
    let Some(branch) = branch_in(bytes) else {
        return Way::Damaged;
    };
    let Some(left) = behind(branch.key, rest) else {
        return Way::Ends(None);
    };
    let Some((byte, left)) = left.split_first() else {
        return Way::Ends(branch.value);
    };
    match child_in(branch.links, *byte) {
        None => Way::Ends(None),
        Some(child) if child.is_below(at) => Way::Goes(child, left),
        Some(_) => Way::Damaged,
    }
}
