//! Where branches are put, each behind those before it: a block of bytes, or a list in memory.
ghost use Rattle.std.specs.Prelude.{◌≡◌, true, false, refl, Bool, IfOk, OnErr, IsTrue};
ghost use Rattle.xod_block.specs.declared.address.Address.{Address};
ghost use Rattle.xod_trie.specs.declared.branch.Branch.{Branch};
ghost use Rattle.xod_trie_mut.specs.Keeps.{CanPut, IsPutLast, with_children};
ghost use Rattle.xod_trie_mut.specs.Own.{is_saved};

use crate::own_branch::{OwnBranch, Seats};
use crate::seat::Seat;
use std::alloc::Global;
use xod_base::{Listed, Memory};

/// What branches are put into.
pub trait Keep {
    /// Where the next branch will stand.
    ghost place: { Self → Address };

    /// The same with a branch at its end.
    ghost with_last: { Self → Branch → Self };

    /// Whether its branches may name an address.
    ghost names: { Address → Bool };

    /// What holds of each branch that it takes.
    ghost takes: { Branch → Type 0 };

    /// Puts a branch at the end, whose children are there already, and answers where it stands. A refusal changes
    /// nothing.
    fn keep(&mut self, alloc: Global, branch: &OwnBranch, children: Seats) -> Result<Seat, Memory>
        requires { CanPut names branch.now children }
        ensures put { IfOk result (λ at.
            IsPutLast place with_last names takes self.old self.new
            (with_children branch.now children) at) }
        ensures refused { OnErr result (self.new ≡ self.old) };

    // Each may name the records of a log.
    ghost names_records: { (at : Address) → is_saved at ≡ true → IsTrue (names at) };
}

impl Keep for Listed<OwnBranch> {
    ghost use Rattle.std.specs.Prelude.{length, ◌++◌, ◌∷◌, []};
    ghost use Rattle.xod_trie_mut.specs.Own.{own_address, is_whole};

    ghost place = { λ list. own_address (length list) };

    ghost with_last = { λ list branch. list ++ branch ∷ [] };

    ghost names = { λ at. true };

    ghost takes = { λ branch. IsTrue (is_whole branch) };

    ghost names_records = { λ at saved. refl };

    fn keep(&mut self, alloc: Global, branch: &OwnBranch, children: Seats) -> Result<Seat, Memory> {
        let copy = branch.try_copy(alloc)?;
        let at = Seat::own(self.len() as u64);
        self.push(copy.with_children(children))?;
        Ok(at)
    }
}
