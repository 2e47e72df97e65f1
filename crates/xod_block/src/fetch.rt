//! Where tries get their records from.
//!
//! An object of this trait lends the bytes of records by their address: a lease with the records kept of it, or a list
//! in a test. Trees, walks and moves know nothing else of files.
ghost use base.Fml.{GName};
ghost use Rattle.std.specs.Prelude.{◌≡◌, ◌≤◌, ℕ, Bool, IsTrue, IfOk, OnErr, List, Option, None};
ghost use Rattle.xod_base.specs.declared.causes.Place.{Place};
ghost use Rattle.xod_base.specs.declared.causes.ReadError.TheVariants.{Damaged};
ghost use Rattle.xod_base.specs.Views.{CountsFaults};
ghost use Rattle.xod_block.specs.Addresses.{number_of};
ghost use Rattle.xod_block.specs.Fetches.{Fetched, place_of};
ghost use Rattle.xod_block.specs.Maps.{BranchesEverywhere, RisesEverywhere};
ghost use Rattle.xod_block.specs.Records.{RecordValue};

use crate::address::Address;
use std::alloc::Global;
use xod_base::{Bytes, ReadError};

/// An object that has records by their address.
///
/// `tells` says whether the records are known, `records` which one stands at an address where they are, and `faults`
/// how often the outside failed. `refs` names the references that an object holds, so that whoever lent them knows
/// after a call that they are still there.
pub trait Fetch {
    ghost tells: { Self → Bool };

    ghost records: { Self → ℕ → Option RecordValue };

    ghost faults: { Self → ℕ };

    ghost refs: { Self → List GName };

    /// Puts the bytes of the record at an address at the end of `out`, and answers how many they are.
    fn fetch(&mut self, alloc: Global, at: Address, out: &mut Bytes) -> Result<usize, ReadError>
        ensures found { IfOk result (λ count.
            Fetched (tells self.old) (records self.old (number_of at)) out.old out.new count) }
        ensures counts { CountsFaults (faults self.old) (faults self.new) result }
        ensures damaged_only_without_a_record { IsTrue (tells self.old) → (place : Place)
            → result ≡ Err (Damaged place) → records self.old (number_of at) ≡ None }
        ensures damaged_names_this_place { (place : Place)
            → result ≡ Err (Damaged place) → place ≡ place_of at }
        ensures err { OnErr result (out.new ≡ out.old) }

        // No call changes anything but the count, which never falls.
        ensures count { faults self.old ≤ faults self.new }
        ensures tells { tells self.new ≡ tells self.old }
        ensures records { records self.new ≡ records self.old }
        ensures refs { refs self.new ≡ refs self.old };

    // So the keys of its maps rise, also those that no call has looked at.
    ghost rises: { (fetch : Self) → RisesEverywhere (records fetch) };

    // So no map is empty, and a map determines the shape of its trie.
    ghost branches: { (fetch : Self) → BranchesEverywhere (records fetch) };
}
