//! Which keys of a branch pass, read off the bytes of its record.
//!
//! A key passes where it is not below another one or, where the test is strict, where it is above it. What is asked
//! here is of one branch alone; walks and cursors put the answers together.
ghost use Rattle.std.specs.Prelude.{◌≡◌, ◌∷◌, ◌++◌, ℕ, Bool, List, Option, Some};
ghost use Rattle.std.specs.Ordering.{is_lt};
ghost use Rattle.xod_base.specs.Values.{bytes_cmp};
ghost use Rattle.xod_block.specs.Maps.{RecordsAt, Pairs, map_at};
ghost use Rattle.xod_block.specs.Reading.{links_in, record_in};
ghost use Rattle.xod_block.specs.Records.{RecordValue};
ghost use Rattle.xod_trie.specs.Branches.{IsBranch, branch_seen};
ghost use Rattle.xod_trie.specs.Least.{passes};
ghost use Rattle.xod_cursor.specs.Entries.{kept};
ghost use Rattle.xod_cursor.specs.Wants.{count_below, IsWanted, IsRead};

use xod_block::{Address, link_at, link_count};
use xod_trie::{BranchRef, behind, branch_in};

/// The children of a branch from a place on, behind its key part.
#[derive(Clone, Copy, Debug)]
pub struct Onward<'b, 'k> {
    pub part: &'b [u8],
    pub links: &'b [u8],
    pub place: usize,
    /// What is left of the key behind the key part.
    pub behind: &'k [u8],
}

/// Which keys of a branch pass.
#[derive(Clone, Copy, Debug)]
pub enum Wanted<'b, 'k> {
    /// The bytes begin with no leaf or node.
    Damaged,
    /// All of them.
    All,
    /// None of them.
    Nothing,
    /// All under the children from a place on.
    From(Onward<'b, 'k>),
    /// Under this child those that pass what is left of the key, and all under the children from a place on, which are
    /// those behind it.
    Into((u8, Address), &'k [u8], Onward<'b, 'k>),
}

/// Whether a key is below another.
fn is_under(key: &[u8], other: &[u8]) -> bool
    ensures { result ≡ is_lt (bytes_cmp key.now other.now) }
{
    key.cmp(other).is_lt()
}

/// How many children stand under a lesser byte.
fn count_below(links: &[u8], byte: u8) -> usize
    ensures { result ≡ count_below byte (links_in links.now) }
{
    let count = link_count(links);
    for index in 0..count {
        let (b, _) = link_at(links, index);
        if b >= byte {
            return index;
        }
    }
    count
}

/// Behind the key part of a branch, where the key goes on with a byte: the child of that byte, and those behind it.
fn wanted_on<'b, 'k>(
    branch: BranchRef<'b>,
    left: &'k [u8],
    byte: u8,
    further: &'k [u8],
) -> Wanted<'b, 'k>
    ensures wanted { (records : RecordsAt) (strict : Bool) (at : ℕ) (pairs : Pairs)
        → IsBranch (records at) (branch_seen branch.entry) → map_at records at ≡ Some pairs
        → (rest : List ℕ) → rest ≡ branch.entry.key.now ++ left.now → left.now ≡ byte ∷ further.now
        → IsWanted records strict at rest pairs (kept (passes strict rest) pairs) result }
    ensures read { (item : Option RecordValue) → IsBranch item (branch_seen branch.entry)
        → IsRead item result }
{
    let part = branch.key;
    let links = branch.links;
    let place = count_below(links, byte);
    let from = Onward {
        part,
        links,
        place,
        behind: left,
    };
    if place >= link_count(links) {
        return Wanted::From(from);
    }
    let (b, child) = link_at(links, place);
    if b != byte {
        return Wanted::From(from);
    }
    let place = place + 1;
    let behind = left;
    Wanted::Into(
        (b, child),
        further,
        Onward {
            part,
            links,
            place,
            behind,
        },
    )
}

/// Which keys pass of the branch that bytes begin with, where `rest` is what is left of the key before its key part.
pub fn wanted_at<'b, 'k>(bytes: &'b [u8], rest: &'k [u8], strict: bool) -> Wanted<'b, 'k>
    ensures wanted { (records : RecordsAt) (at : ℕ) (pairs : Pairs)
        → record_in bytes.now ≡ records at → map_at records at ≡ Some pairs
        → IsWanted records strict at rest.now pairs (kept (passes strict rest.now) pairs) result }
    ensures read { IsRead (record_in bytes.now) result }
{
    let Some(branch) = branch_in(bytes) else {
        return Wanted::Damaged;
    };
    let Some(left) = behind(branch.key, rest) else {
        if is_under(rest, branch.key) {
            return Wanted::All;
        }
        return Wanted::Nothing;
    };
    let Some((byte, further)) = left.split_first() else {
        if !strict {
            return Wanted::All;
        }
        return Wanted::From(Onward {
            part: branch.key,
            links: branch.links,
            place: 0,
            behind: left,
        });
    };
    wanted_on(branch, left, *byte, further)
}
