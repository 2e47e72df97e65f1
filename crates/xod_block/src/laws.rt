//! Laws of the definitions in `specs/`.
//!
//! Each is a function that does nothing and ensures the law, so that a reader finds it among the contracts.
ghost use Rattle.std.specs.Prelude.{◌≡◌, ◌<◌, ◌≤◌, ◌↔◌, ◌+◌, ◌*◌, ◌^◌, ◌++◌, length, List, [], ℕ, Some, IsSome, true};
ghost use Rattle.xod_block.specs.Maps.{RecordsAt, BranchesEverywhere, RisesEverywhere, OnlyMore, Pairs, map_at, pairs_of};
ghost use Rattle.std.specs.Ordering.{nat_cmp};
ghost use Rattle.std.specs.Cmp.Lexicographic.{slice_cmp};
ghost use Rattle.std.specs.FinMap.{is_sorted};
ghost use Rattle.xod_block.specs.Addresses.{IsBefore, number_of};
ghost use Rattle.xod_block.specs.declared.address.Address.{Address};
ghost use Rattle.xod_block.specs.declared.end_mark.EndMark.{EndMark};
ghost use Rattle.xod_block.specs.Bodies.{Bodies, records_of, appended, with_block, HaveGrown};
ghost use Rattle.xod_block.specs.Marks.{mark_bytes, mark_of};
ghost use Rattle.xod_block.specs.Records.{RecordValue, Fits, spelling};

/// A mark comes back from its bytes, whatever its gate is.
pub fn every_mark_comes_back()
    ensures { (mark : EndMark) → mark.end < 2 ^ 64 → mark.back < 2 ^ 32
        → mark_of (mark_bytes mark) ≡ mark }
{}

/// No spelling is a proper front of another, and no two records are spelled alike. So a list of records needs nothing
/// between them.
pub fn no_spelling_begins_another()
    ensures { (a b : RecordValue) (more : List ℕ) → Fits a → Fits b
        → spelling a ++ more ≡ spelling b → (a ≡ b) × (more ≡ []) }
{}

/// The map at an address is that of the record there, over the maps at the children that it names.
pub fn map_of_a_record()
    ensures { (records : RecordsAt) (at : ℕ)
        → map_at records at ≡ pairs_of (map_at records) at (records at) }
{}

/// The keys of a map rise strictly, so it is a finite map and has each key once.
pub fn keys_of_a_map_rise()
    ensures { (records : RecordsAt) (at : ℕ) (pairs : Pairs) → RisesEverywhere records
        → map_at records at ≡ Some pairs → is_sorted (slice_cmp nat_cmp) pairs ≡ true }
{}

/// A map reads no address above its own, so records that come later in the log do not change it.
pub fn later_records_change_no_map()
    ensures { (old new : RecordsAt) (at : ℕ) → ((below : ℕ) → below ≤ at → old below ≡ new below)
        → map_at old at ≡ map_at new at }
{}

/// A map stays where each record that stood stays. More bytes may bring records to places that had none.
pub fn more_records_change_no_map()
    ensures { (old new : RecordsAt) (at : ℕ) → OnlyMore old new at → IsSome (map_at old at)
        → map_at new at ≡ map_at old at }
{}

/// The child bytes of each node in bodies rise, whatever their bytes are.
pub fn children_of_bodies_rise()
    ensures { (bodies : Bodies) → RisesEverywhere (records_of bodies) }
{}

/// Each node in bodies has a value and one child, or two children, whatever their bytes are.
pub fn nodes_of_bodies_branch()
    ensures { (bodies : Bodies) → BranchesEverywhere (records_of bodies) }
{}

/// Each record of bodies stays where they grow at their ends. So do their maps, by the law above.
pub fn growing_bodies_keep_records()
    ensures { (old new : Bodies) (at : ℕ) → HaveGrown old new
        → OnlyMore (records_of old) (records_of new) at }
{}

/// A block that was put at the end of a body is read there as it was before: each record that it had, together with
/// those of the bodies, is one of the longer bodies.
pub fn an_appended_block_is_read()
    ensures { (bodies : Bodies) (file : ℕ) (block : List ℕ) (at : ℕ)
        → length (bodies file) + length block ≤ 2 ^ 64
        → OnlyMore (with_block (file * 2 ^ 64 + length (bodies file)) block (records_of bodies))
        (records_of (appended bodies file block)) at }
{}

/// Addresses are in the order of their numbers.
pub fn addresses_go_by_number()
    ensures { (a b : Address) → a.at < 2 ^ 64 → b.at < 2 ^ 64
        → IsBefore a b ↔ (number_of a < number_of b) }
{}
