//! The root record that a sealed body ends with.
ghost use Rattle.std.specs.Prelude.{◌≡◌, true, IfSome};
ghost use Rattle.std.specs.FinMap.{entries};
ghost use Rattle.std.specs.Option.{option_map};
ghost use Rattle.xod_block.specs.Seen.{seen, HasSpelling};
ghost use Rattle.xod_root.specs.Roots.{root_record};
ghost use Rattle.xod_recover.specs.Check.{are_trees, rooted_by, rooted_in};
ghost use Rattle.xod_recover.specs.Rooted.{SpellsRoot};

use xod_block::{Address, LogRecord, decode_record};
use xod_root::{RootList, read_root};

/// Whether links have the numbers that trees have.
fn are_trees(links: &[(u8, Address)]) -> bool
    ensures { result ≡ are_trees links.now }
{
    for (tree, _) in links {
        if *tree < 1 || *tree > 8 {
            return false;
        }
    }
    true
}

/// The commit and the roots of a root record of a store. `None` exactly where the record is none.
fn rooted_by(item: &LogRecord<'_>) -> Option<(u64, RootList)>
    requires { HasSpelling item.now }
    ensures exactly { option_map (λ root. (root.0, entries root.1)) result
        ≡ rooted_by (seen item.now) }
    ensures numbered { IfSome result (λ root. are_trees (entries root.1) ≡ true) }
    ensures spelled { IfSome result (λ root. root_record root.0 root.1 ≡ seen item.now) }
{
    let (commit, roots) = read_root(item)?;
    if !are_trees(roots.as_slice()) {
        return None;
    }
    Some((commit, roots))
}

/// The commit and the roots of the record that bytes are, from first to last. `None` exactly where
/// they are no root record of a store.
#[tactic(auto, unfolding(crate::specs::Check::rooted_in))]
pub fn root_in(bytes: &[u8]) -> Option<(u64, RootList)>
    ensures exactly { option_map (λ root. (root.0, entries root.1)) result
        ≡ rooted_in bytes.now }
    ensures numbered { IfSome result (λ root. are_trees (entries root.1) ≡ true) }
    ensures spelled { IfSome result (λ root. SpellsRoot root.0 root.1 bytes.now) }
{
    let (item, count) = decode_record(bytes)?;
    if count != bytes.len() {
        return None;
    }
    rooted_by(&item)
}
