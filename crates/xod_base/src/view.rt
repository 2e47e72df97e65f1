//! Trees of keys and values, as their readers see them.
//!
//! A snapshot is a view, and so is an overlay over another one, or a map in a test. What a view holds is told by those
//! over known bytes and not by one over real files. What its calls answer stands in `specs/Views.antt`.
ghost use base.Fml.{GName};
ghost use Rattle.std.specs.Prelude.{ℕ, Bool, List};
ghost use Rattle.std.specs.FinMap.{get as value_at};
ghost use Rattle.xod_base.specs.Views.{Trees, Answers, CountsFaults, KeepsView, least_pair, not_below, above};

use crate::causes::ReadError;
use crate::listed::Bytes;
use crate::pair::Pair;
use std::alloc::Global;

/// Trees by number, each a finite map from keys to values, and the number of the commit that they are of.
///
/// `Device` comes only where the count of faults rose in the call. `Damaged` never comes where the view tells and the
/// tree is there.
pub trait TreeView {
    /// Whether it tells what it holds.
    ghost tells: { Self → Bool };

    /// Its trees. One is absent where the bytes that should stand for it are no map.
    ghost trees: { Self → Trees };

    /// The number of its commit.
    ghost commit: { Self → ℕ };

    /// How often the outside failed.
    ghost faults: { Self → ℕ };

    /// The references that it holds, so that whoever lent them knows after a call that they are still there.
    ghost refs: { Self → List GName };

    /// The value at a key, and `None` exactly where there is none.
    fn get(&mut self, alloc: Global, tree: u8, key: &[u8]) -> Result<Option<Bytes>, ReadError>
        ensures answers { Answers (tells self.old) (trees self.old tree)
            (λ map. value_at map key.now) result }
        ensures counts { CountsFaults (faults self.old) (faults self.new) result }
        ensures keeps { KeepsView tells trees commit refs faults self.old self.new };

    /// The pair with the least key that is not below a key, and `None` exactly where there is none.
    fn seek(&mut self, alloc: Global, tree: u8, key: &[u8]) -> Result<Option<Pair>, ReadError>
        ensures answers { Answers (tells self.old) (trees self.old tree)
            (least_pair (not_below key.now)) result }
        ensures counts { CountsFaults (faults self.old) (faults self.new) result }
        ensures keeps { KeepsView tells trees commit refs faults self.old self.new };

    /// The pair with the least key above a key, and `None` exactly where there is none.
    fn next(&mut self, alloc: Global, tree: u8, key: &[u8]) -> Result<Option<Pair>, ReadError>
        ensures answers { Answers (tells self.old) (trees self.old tree)
            (least_pair (above key.now)) result }
        ensures counts { CountsFaults (faults self.old) (faults self.new) result }
        ensures keeps { KeepsView tells trees commit refs faults self.old self.new };
}
