//! Laws of the definitions in `specs/`.
//!
//! Each is a function that does nothing and ensures the law, so that a reader finds it among the
//! contracts.
ghost use Rattle.std.specs.Prelude.{◌≡◌, ◌↔◌, ◌⊎◌, ◌<◌, ◌≤◌, ◌*◌, ◌^◌, ℕ, Bool, List, Ok, Some, None, IsSome};
ghost use Rattle.std.specs.List.{AllByRecursion};
ghost use Rattle.xod_block.specs.declared.address.Address.{Address};
ghost use Rattle.xod_block.specs.Addresses.{number_of};
ghost use Rattle.xod_block.specs.Bodies.{records_of};
ghost use Rattle.xod_block.specs.Maps.{RecordsAt};
ghost use Rattle.xod_block.specs.Records.{Link};
ghost use Rattle.xod_volume.specs.Files.{Files, bytes_of};
ghost use Rattle.xod_trie.specs.Tries.{trie_map};
ghost use Rattle.xod_log.specs.Ends.{body_of};
ghost use Rattle.xod_recover.specs.Check.{Newest, check, no_newest, records_upto};
ghost use Rattle.xod_recover.specs.Cuts.{ended_by};
ghost use Rattle.xod_recover.specs.Newest.{IsNewest};
ghost use Rattle.xod_recover.specs.Opened.{greatest_used};
ghost use Rattle.xod_recover.specs.Stores.{IsGood, rows_in, stored_by};
ghost use Rattle.xod_recover.specs.Walks.{bad_trees, bad_under};
ghost use Rattle.xod_recover.specs.Whole.{IsWhole};

/// The records of a body up to a place are those of the body that end before that place or there.
pub fn records_count_where_they_end()
    ensures { (files : Files) (file end number : ℕ) → records_upto files file end number
        ≡ ended_by (records_of (λ other. bytes_of files (body_of other))) file end number }
{}

/// Nothing is bad exactly where a trie has a map, stands below what names it, and each log file
/// that is reached has a body.
pub fn nothing_is_bad_exactly_in_whole_tries()
    ensures { (records : RecordsAt) (has_body : ℕ → Bool) (naming at : Address)
        → (bad_under records has_body naming at ≡ None) ↔ IsWhole records has_body naming at }
{}

/// A walk looks at no record that is not below the root, and at no log file above it.
pub fn later_records_change_no_walk()
    ensures { (old new : RecordsAt) (had has : ℕ → Bool) (root : Address) (trees : List Link)
        → ((at : ℕ) → at < number_of root → old at ≡ new at)
        → ((file : ℕ) → file * 2 ^ 64 ≤ number_of root → had file ≡ has file)
        → bad_trees old had root trees ≡ bad_trees new has root trees }
{}

/// The check finds exactly the newest root, and where no log file is used an empty store.
pub fn the_newest_root_is_found()
    ensures { (files : Files) (newest : Newest) → (check files ≡ Ok newest)
        ↔ (((greatest_used files ≡ None) × (newest ≡ no_newest)) ⊎ IsNewest files newest) }
{}

/// Each tree that the newest root of good files lists has a map. So has each other number: it is a
/// tree without keys.
pub fn good_trees_have_maps()
    ensures listed { (files : Files) (newest : Newest) → check files ≡ Ok newest
        → AllByRecursion (λ tree. IsSome (trie_map (records_upto files newest.file newest.end)
        (Some tree.1))) newest.trees }
    ensures each { (files : Files) (newest : Newest) (tree : ℕ) → check files ≡ Ok newest
        → IsSome ((stored_by files newest).trees tree) }
{}

/// Good files have rows: their trees are the tables of these.
pub fn good_stores_have_rows()
    ensures { (files : Files) → IsGood files → IsSome (rows_in files) }
{}
