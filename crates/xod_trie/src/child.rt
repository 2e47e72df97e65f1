//! Where a key goes on from a branch: what is left of it behind the key part, and the child of a byte.
ghost use Rattle.std.specs.Prelude.{◌≡◌};
ghost use Rattle.std.specs.Option.{option_map};
ghost use Rattle.xod_block.specs.Reading.{links_in};
ghost use Rattle.xod_trie.specs.Branches.{behind, child_of};

use xod_block::{Address, link_at, link_count};

/// What is left of a key behind a front, and `None` exactly where it does not begin with that.
pub fn behind<'a>(front: &[u8], key: &'a [u8]) -> Option<&'a [u8]>
    ensures { option_map (λ rest. rest.now) result ≡ behind front.now key.now }
{
    if !key.starts_with(front) {
        return None;
    }
    let (_, rest) = key.split_at(front.len());
    Some(rest)
}

/// The child under a byte.
pub fn child_of(children: &[(u8, Address)], byte: u8) -> Option<Address>
    ensures { result ≡ child_of byte children.now }
{
    for (b, at) in children {
        if *b == byte {
            return Some(*at);
        }
    }
    None
}

/// The child under a byte among links in bytes.
pub fn child_in(links: &[u8], byte: u8) -> Option<Address>
    ensures { result ≡ child_of byte (links_in links.now) }
{
    for index in 0..link_count(links) {
        let (b, at) = link_at(links, index);
        if b == byte {
            return Some(at);
        }
    }
    None
}
