//! The walk.
ghost use Rattle.std.specs.Prelude.{◌≡◌, ◌<◌, IsTrue, IfOk, IfSome, OnOk, drop, slice_get, is_ok, if◌then◌else◌};
ghost use Rattle.std.specs.Option.{option_map};
ghost use Rattle.std.specs.Ordering.{is_gt};
ghost use Rattle.xod_base.specs.Values.{bytes_cmp};
ghost use Rattle.xod_base.specs.Views.{Tree, Answers, CountsFaults, KeepsView, least_pair, pair_of};
ghost use Rattle.xod_range.specs.Ranges.{behind, coming, in_range, onward};

use std::alloc::Global;
use std::cmp::Ordering;
use xod_base::{Bytes, Memory, Pair, Place, ReadError, TreeView};

/// The place that is told of bytes that can't be read: where they stand is not known to a reader of trees.
pub const NOWHERE: Place = Place { file: 0, at: 0 };

/// A walk over the entries of a tree whose keys lie from one key to another, both included, by rising key.
#[derive(Debug, Drop)]
pub struct Range {
    /// The number of the tree.
    pub tree: u8,
    /// The key to go on from.
    pub at: Bytes,
    /// Whether that key was given already.
    pub strict: bool,
    /// The last key that is wanted.
    pub last: Bytes,
    /// How many entries may still be given: more than any memory holds, so that each walk ends, over any view.
    pub left: u64,
}

/// Whether a key lies behind the last one that is wanted.
fn lies_behind(key: &[u8], last: &[u8]) -> bool
    ensures { result ≡ is_gt (bytes_cmp key.now last.now) }
{
    key.cmp(last) == Ordering::Greater
}

impl Range {
    /// The walk over the entries of a tree with keys from `low` to `high`.
    pub fn new(alloc: Global, tree: u8, low: &[u8], high: &[u8]) -> Result<Range, Memory>
        ensures begins { (map : Tree) → IfOk result (λ range. coming range map ≡ in_range low.now high.now map) }
        ensures tree { IfOk result (λ range. range.tree ≡ tree) }
    {
        let at = Bytes::from_vec(Vec::from_slice(alloc, low)?);
        let last = Bytes::from_vec(Vec::from_slice(alloc, high)?);
        Ok(Range {
            tree,
            at,
            strict: false,
            last,
            left: u64::MAX,
        })
    }

    /// The entry with the least key from there on, whether or not it lies behind the last one.
    fn onward<T: TreeView>(&self, view: &mut T, alloc: Global) -> Result<Option<Pair>, ReadError>
        ensures answers { Answers (T.tells view.old) (T.trees view.old self.now.tree)
            (least_pair (onward self.now.strict self.now.at)) result }
        ensures counts { CountsFaults (T.faults view.old) (T.faults view.new) result }
        ensures keeps { KeepsView T.tells T.trees T.commit T.refs T.faults view.old view.new }
    {
        if self.strict {
            view.next(alloc, self.tree, self.at.as_slice())
        } else {
            view.seek(alloc, self.tree, self.at.as_slice())
        }
    }

    /// Goes behind a key.
    fn go_behind(&mut self, alloc: Global, key: &[u8]) -> Result<(), Memory>
        requires { 0 < self.old.left }
        ensures { self.new ≡ (if is_ok result then behind self.old key.now else self.old) }
    {
        self.at = Bytes::from_vec(Vec::from_slice(alloc, key)?);
        self.strict = true;
        self.left -= 1;
        Ok(())
    }

    /// The next entry, and `None` exactly where none is left. After an answer the others are still to come.
    pub fn step<T: TreeView>(
        &mut self,
        view: &mut T,
        alloc: Global,
    ) -> Result<Option<Pair>, ReadError>
        ensures answers { Answers (T.tells view.old) (T.trees view.old self.old.tree)
            (λ map. option_map pair_of (slice_get (coming self.old map) 0)) result }
        ensures goes_on { IsTrue (T.tells view.old) → IfSome (T.trees view.old self.old.tree)
            (λ map. OnOk result (coming self.new map ≡ drop 1 (coming self.old map))) }
        ensures tree { self.new.tree ≡ self.old.tree }
        ensures falls { IfOk result (λ found. IfSome found (λ _. self.new.left < self.old.left)) }
        ensures counts { CountsFaults (T.faults view.old) (T.faults view.new) result }
        ensures keeps { KeepsView T.tells T.trees T.commit T.refs T.faults view.old view.new }
    {
        if self.left == 0 {
            return Err(ReadError::Memory);
        }
        match self.onward(view, alloc)? {
            None => Ok(None),
            Some(pair) => {
                if lies_behind(pair.key.as_slice(), self.last.as_slice()) {
                    return Ok(None);
                }
                self.go_behind(alloc, pair.key.as_slice())?;
                Ok(Some(pair))
            }
        }
    }
}
