//! A trie that is changed in memory.
ghost use Rattle.std.specs.Prelude.{◌≡◌, ◌<◌, Some, Err, false, IsTrue, IsSome, IfSome, IfOk, IfErr, OnOk, OnErr};
ghost use Rattle.std.specs.FinMap.{get, insert, remove, contains_key};
ghost use Rattle.xod_base.specs.declared.causes.Place.{Place};
ghost use Rattle.xod_base.specs.declared.causes.ReadError.TheVariants.{Damaged};
ghost use Rattle.xod_base.specs.Views.{CountsFaults};
ghost use Rattle.xod_block.specs.Fetches.{Stays};
ghost use Rattle.xod_block.specs.Records.{FitsPart};
ghost use Rattle.xod_trie_mut.specs.Changes.{FitChanges, FitToSet, KeysFit, SetNothing, with_changes};
ghost use Rattle.xod_trie_mut.specs.Damaged.{IsBadPlace};
ghost use Rattle.xod_trie_mut.specs.Stops.{Breaks};
ghost use Rattle.xod_block.specs.Addresses.{number_of};
ghost use Rattle.xod_block.specs.Maps.{RecordsAt};
ghost use Rattle.xod_trie.specs.Tries.{trie_map};
ghost use Rattle.xod_trie_mut.specs.Own.{mut_map, over_root, own_start};

use crate::change::Change;
use crate::changing::{Made, changed_or_kept};
use crate::own_branch::OwnBranch;
use crate::seat::Seat;
use crate::weight::Weight;
use std::alloc::Global;
use std::marker::Model;
use xod_base::{Listed, ReadError};
use xod_block::{Address, Fetch};

/// A trie over saved records, with its own branches in memory.
///
/// Its branches stand in one list, children before their parents. A change puts those on its way anew behind the list,
/// so that nothing that stands is written again.
#[derive(Debug, Drop)]
pub struct MutTrie {
    base: Option<Address>,
    own: Listed<OwnBranch>,
    root: Option<Seat>,
    weight: Weight,
}

impl Model for MutTrie {
    ghost use Rattle.xod_trie_mut.specs.Own.{TrieView, IsSound};
    ghost use Rattle.xod_trie_mut.specs.TrieCode.{trie_code};

    ghost Value = { TrieView };

    ghost coded = { trie_code };

    ghost view = { λ trie. record { base = trie.base; own = trie.own; root = trie.root } };

    ghost invariant = { λ trie. IsSound (record { base = trie.base; own = trie.own; root = trie.root }) };
}

/// The seat of a root, where there is one.
fn seat_of(root: Option<Address>) -> Option<Seat>
    ensures exactly { result ≡ root }
    ensures low { IfSome root (λ at. number_of at < own_start) }
{
    match root {
        None => None,
        Some(at) => Some(Seat::saved(at)),
    }
}

impl MutTrie {
    /// The trie under a root, with nothing changed. It takes no memory. Without a root it is the empty trie.
    pub fn over(alloc: Global, root: Option<Address>) -> MutTrie
        ensures untouched { result ≡ over_root root }
        ensures map { (records : RecordsAt) → mut_map result records ≡ trie_map records root }
    {
        MutTrie {
            base: root,
            own: Listed::new(alloc),
            root: seat_of(root),
            weight: Weight::new(),
        }
    }

    /// Lets go of the branches that the root does not reach, where many bytes are held for them. A refusal keeps them.
    fn lighten(&mut self, alloc: Global)
        ensures map { (records : RecordsAt) → IfSome (mut_map self.old records) (λ map.
            mut_map self.new records ≡ Some map) }
        ensures base { self.new.base ≡ self.old.base }
    {
        self.weight.add(self.own.as_slice());
        if self.weight.is_heavy() && self.compact(alloc).is_ok() {
            self.weight = Weight::of(self.own.as_slice());
        }
    }

    /// Makes changes, and keeps all branches. It answers whether they changed anything.
    fn make_all<F: Fetch>(
        &mut self,
        fetch: &mut F,
        alloc: Global,
        changes: &[Change<'_>],
    ) -> Result<bool, ReadError>
        requires fit { FitToSet changes.now }
        requires keys_fit { IsTrue (F.tells fetch.old)
            → IfSome (mut_map self.old (F.records fetch.old)) KeysFit }
        ensures changed { IsTrue (F.tells fetch.old)
            → IfSome (mut_map self.old (F.records fetch.old)) (λ map.
            OnOk result (mut_map self.new (F.records fetch.old)
            ≡ Some (with_changes map changes.now))) }
        ensures nothing_new { IsTrue (F.tells fetch.old)
            → IfSome (mut_map self.old (F.records fetch.old)) (λ map.
            SetNothing map changes.now → IfOk result (λ told.
            (self.new ≡ self.old) × (told ≡ false))) }
        ensures told { IsTrue (F.tells fetch.old)
            → IfSome (mut_map self.old (F.records fetch.old)) (λ map. IfOk result (λ told.
            told ≡ false → with_changes map changes.now ≡ map)) }
        ensures refused { OnErr result (self.new ≡ self.old) }
        ensures base { self.new.base ≡ self.old.base }
        ensures breaks { IfErr result (Breaks (F.tells fetch.old) (F.records fetch.old)
            (IsSome (mut_map self.old (F.records fetch.old)))) }
        ensures counts { CountsFaults (F.faults fetch.old) (F.faults fetch.new) result }
        ensures stays { Stays F.tells F.records F.refs F.faults fetch.old fetch.new }
    {
        match changed_or_kept(fetch, alloc, &mut self.own, &self.root, changes) {
            Ok(made) => {
                let Made { root, changed } = made;
                self.root = root;
                Ok(changed)
            }
            Err(error) => Err(error),
        }
    }

    /// Makes changes, and answers whether they changed anything.
    fn make_changes<F: Fetch>(
        &mut self,
        fetch: &mut F,
        alloc: Global,
        changes: &[Change<'_>],
    ) -> Result<bool, ReadError>
        requires fit { FitToSet changes.now }
        requires keys_fit { IsTrue (F.tells fetch.old)
            → IfSome (mut_map self.old (F.records fetch.old)) KeysFit }
        ensures changed { IsTrue (F.tells fetch.old)
            → IfSome (mut_map self.old (F.records fetch.old)) (λ map.
            OnOk result (mut_map self.new (F.records fetch.old)
            ≡ Some (with_changes map changes.now))) }
        ensures nothing_new { IsTrue (F.tells fetch.old)
            → IfSome (mut_map self.old (F.records fetch.old)) (λ map.
            SetNothing map changes.now → IfOk result (λ told.
            (self.new ≡ self.old) × (told ≡ false))) }
        ensures told { IsTrue (F.tells fetch.old)
            → IfSome (mut_map self.old (F.records fetch.old)) (λ map. IfOk result (λ told.
            told ≡ false → with_changes map changes.now ≡ map)) }
        ensures refused { OnErr result (self.new ≡ self.old) }
        ensures base { self.new.base ≡ self.old.base }
        ensures breaks { IfErr result (Breaks (F.tells fetch.old) (F.records fetch.old)
            (IsSome (mut_map self.old (F.records fetch.old)))) }
        ensures counts { CountsFaults (F.faults fetch.old) (F.faults fetch.new) result }
        ensures stays { Stays F.tells F.records F.refs F.faults fetch.old fetch.new }
    {
        match self.make_all(fetch, alloc, changes) {
            Ok(false) => Ok(false),
            Ok(true) => {
                self.lighten(alloc);
                Ok(true)
            }
            Err(error) => Err(error),
        }
    }

    /// Makes all changes of a list, the first one first. Where the keys rise, a branch that several of them pass is made
    /// anew once. After an error the trie is as it was.
    pub fn change<F: Fetch>(
        &mut self,
        fetch: &mut F,
        alloc: Global,
        changes: &[Change<'_>],
    ) -> Result<(), ReadError>
        requires fit { FitChanges changes.now }
        requires keys_fit { IsTrue (F.tells fetch.old)
            → IfSome (mut_map self.old (F.records fetch.old)) KeysFit }
        ensures changed { IsTrue (F.tells fetch.old)
            → IfSome (mut_map self.old (F.records fetch.old)) (λ map.
            OnOk result (mut_map self.new (F.records fetch.old)
            ≡ Some (with_changes map changes.now))) }
        ensures nothing_new { IsTrue (F.tells fetch.old)
            → IfSome (mut_map self.old (F.records fetch.old)) (λ map.
            SetNothing map changes.now → OnOk result (self.new ≡ self.old)) }
        ensures refused { OnErr result (self.new ≡ self.old) }
        ensures base { self.new.base ≡ self.old.base }
        ensures counts { CountsFaults (F.faults fetch.old) (F.faults fetch.new) result }
        ensures damaged_only_where_bytes_are { IsTrue (F.tells fetch.old) → (place : Place)
            → result ≡ Err (Damaged place) → IsBadPlace (F.records fetch.old) place }
        ensures never_damaged { IsTrue (F.tells fetch.old)
            → IsSome (mut_map self.old (F.records fetch.old)) → (place : Place)
            → result ≡ Err (Damaged place) → ⊥ }
        ensures stays { Stays F.tells F.records F.refs F.faults fetch.old fetch.new }
    {
        match self.make_changes(fetch, alloc, changes) {
            Ok(_) => Ok(()),
            Err(error) => Err(error),
        }
    }

    /// Sets the value of a key. After an error the trie is as it was.
    pub fn put<F: Fetch>(
        &mut self,
        fetch: &mut F,
        alloc: Global,
        key: &[u8],
        value: &[u8],
    ) -> Result<(), ReadError>
        requires key_fits { FitsPart key.now }
        requires value_fits { FitsPart value.now }
        requires keys_fit { IsTrue (F.tells fetch.old)
            → IfSome (mut_map self.old (F.records fetch.old)) KeysFit }
        ensures put { IsTrue (F.tells fetch.old)
            → IfSome (mut_map self.old (F.records fetch.old)) (λ map.
            OnOk result (mut_map self.new (F.records fetch.old)
            ≡ Some (insert map key.now value.now))) }
        ensures nothing_new { IsTrue (F.tells fetch.old)
            → IfSome (mut_map self.old (F.records fetch.old)) (λ map.
            get map key.now ≡ Some value.now → OnOk result (self.new ≡ self.old)) }
        ensures refused { OnErr result (self.new ≡ self.old) }
        ensures base { self.new.base ≡ self.old.base }
        ensures counts { CountsFaults (F.faults fetch.old) (F.faults fetch.new) result }
        ensures damaged_only_where_bytes_are { IsTrue (F.tells fetch.old) → (place : Place)
            → result ≡ Err (Damaged place) → IsBadPlace (F.records fetch.old) place }
        ensures never_damaged { IsTrue (F.tells fetch.old)
            → IsSome (mut_map self.old (F.records fetch.old)) → (place : Place)
            → result ≡ Err (Damaged place) → ⊥ }
        ensures stays { Stays F.tells F.records F.refs F.faults fetch.old fetch.new }
    {
        let change = Change {
            key,
            value: Some(value),
        };
        match self.make_changes(fetch, alloc, &[change]) {
            Ok(_) => Ok(()),
            Err(error) => Err(error),
        }
    }

    /// Removes a key, and answers whether it was there. After an error the trie is as it was.
    pub fn remove<F: Fetch>(
        &mut self,
        fetch: &mut F,
        alloc: Global,
        key: &[u8],
    ) -> Result<bool, ReadError>
        requires keys_fit { IsTrue (F.tells fetch.old)
            → IfSome (mut_map self.old (F.records fetch.old)) KeysFit }
        ensures removed { IsTrue (F.tells fetch.old)
            → IfSome (mut_map self.old (F.records fetch.old)) (λ map.
            OnOk result (mut_map self.new (F.records fetch.old) ≡ Some (remove map key.now))) }
        ensures was_there { IsTrue (F.tells fetch.old)
            → IfSome (mut_map self.old (F.records fetch.old)) (λ map.
            IfOk result (λ was. was ≡ contains_key map key.now)) }
        ensures nothing_new { IsTrue (F.tells fetch.old)
            → IfSome (mut_map self.old (F.records fetch.old)) (λ map.
            contains_key map key.now ≡ false → OnOk result (self.new ≡ self.old)) }
        ensures refused { OnErr result (self.new ≡ self.old) }
        ensures base { self.new.base ≡ self.old.base }
        ensures counts { CountsFaults (F.faults fetch.old) (F.faults fetch.new) result }
        ensures damaged_only_where_bytes_are { IsTrue (F.tells fetch.old) → (place : Place)
            → result ≡ Err (Damaged place) → IsBadPlace (F.records fetch.old) place }
        ensures never_damaged { IsTrue (F.tells fetch.old)
            → IsSome (mut_map self.old (F.records fetch.old)) → (place : Place)
            → result ≡ Err (Damaged place) → ⊥ }
        ensures stays { Stays F.tells F.records F.refs F.faults fetch.old fetch.new }
    {
        let change = Change { key, value: None };
        self.make_changes(fetch, alloc, &[change])
    }
}

impl MutTrie {
    ghost use Rattle.std.specs.Prelude.{◌<◌, ◌↔◌, ◌^◌, ◌++◌, length, [], IfOk, OnOk, OnErr, Some};
    ghost use Rattle.std.specs.FinMap.{empty};
    ghost use Rattle.std.specs.List.{AllByRecursion};
    ghost use Rattle.xod_block.specs.Addresses.{number_of};
    ghost use Rattle.xod_block.specs.Bodies.{with_block};
    ghost use Rattle.xod_block.specs.Maps.{BranchesEverywhere};
    ghost use Rattle.xod_trie.specs.Branches.{FitsBranch};
    ghost use Rattle.xod_trie_mut.specs.Saves.{ChildrenFall, IsBelow, IsSavedBehind, IsUntouched, block_places, compacted, further, saved_behind};

    /// Puts the records of its branches behind the bytes of a block, of which the first one has the address `at`, and
    /// answers the root. What the block had stays before. Nothing is put for what is saved already.
    pub fn save(
        &self,
        alloc: Global,
        at: Address,
        block: &mut xod_base::Bytes,
    ) -> Result<Option<Address>, xod_base::Memory>
        requires below { IsBelow self.now.base at }
        requires small { at.at < 2 ^ 63 }
        ensures exactly { IfOk result (IsSavedBehind at block.old block.new self.now) }
        ensures refused { OnErr result (block.new ≡ block.old) }

        // What was saved means the same, over the records before it and the block.
        ensures map { (records : RecordsAt) → IfSome (mut_map self.now records) (λ map.
            IfOk result (λ root.
            trie_map (with_block (number_of at) block.new records) root ≡ Some map)) }
        ensures empty { (records : RecordsAt) → BranchesEverywhere records
            → IfSome (mut_map self.now records) (λ map.
            IfOk result (λ root. (root ≡ None) ↔ (map ≡ empty))) }
        ensures untouched { IsUntouched self.now.root → IfOk result (λ root.
            (root ≡ self.now.root) × (block.new ≡ block.old)) }
        ensures root_is_before_the_end { IfOk result (λ root.
            IsBelow root (further at (length block.new))) }

        // Each branch is a record, and names what stands before it.
        ensures records { OnOk result (AllByRecursion FitsBranch
            (saved_behind at block.old self.now).branches) }
        ensures falling { ChildrenFall (block_places (further at (length block.old)))
            (saved_behind at block.old self.now).branches }
    {
        crate::save_laws::record_stands_below(at);
        match crate::save::save_trie(alloc, self.own.as_slice(), self.root, at, block) {
            Ok(root) => Ok(root),
            Err(error) => Err(error),
        }
    }

    /// Lets go of the branches that the root does not reach.
    pub(crate) fn compact(&mut self, alloc: Global) -> Result<(), xod_base::Memory>
        ensures exactly { OnOk result (self.new ≡ compacted self.old) }
        ensures map { (records : RecordsAt) → IfSome (mut_map self.old records) (λ map.
            mut_map self.new records ≡ Some map) }
        ensures refused { OnErr result (self.new ≡ self.old) }
        ensures base { self.new.base ≡ self.old.base }
    {
        crate::save_laws::base_stands_below(self.base);
        let crate::compact::Kept { own, root } = crate::compact::reached(
            alloc,
            self.own.as_slice(),
            self.root,
        )?;
        self.own = own;
        self.root = root;
        Ok(())
    }
}
