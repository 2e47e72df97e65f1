//! Laws of the definitions in `specs/`.
//!
//! Each is a function that does nothing and ensures the law, so that a reader finds it among the contracts.
ghost use Rattle.std.specs.Prelude.{◌≡◌, ◌≢◌, ◌≤◌, ◌+◌, ◌++◌, ℕ, List, Option, Some};
ghost use Rattle.std.specs.FinMap.{get, len};
ghost use Rattle.std.specs.Option.{option_and_then};
ghost use Rattle.xod_block.specs.declared.address.Address.{Address};
ghost use Rattle.xod_block.specs.Reading.{record_in};
ghost use Rattle.xod_block.specs.Records.{Fits, spelling};
ghost use Rattle.xod_root.specs.Roots.{Roots, root_in, root_record, with_root};

/// What `encode_root` wrote is read as it was, whatever comes behind it: the commit and the roots come back.
pub fn a_written_root_is_read()
    ensures { (commit : ℕ) (roots : Roots) (more : List ℕ) → Fits (root_record commit roots)
        → option_and_then root_in (record_in (spelling (root_record commit roots) ++ more))
        ≡ Some (commit, roots) }
{}

/// After a root is set the tree has it, any other tree has what it had, and one tree more is listed at most.
pub fn one_root_is_set()
    ensures own { (roots : Roots) (tree : ℕ) (root : Option Address)
        → get (with_root roots tree root) tree ≡ root }
    ensures others { (roots : Roots) (tree other : ℕ) (root : Option Address) → other ≢ tree
        → get (with_root roots tree root) other ≡ get roots other }
    ensures one_more_at_most { (roots : Roots) (tree : ℕ) (root : Option Address)
        → len (with_root roots tree root) ≤ len roots + 1 }
{}
