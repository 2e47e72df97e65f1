//! Laws of tables and of the rows that they are read as; nothing here runs.
ghost use Rattle.xod_tables.specs.Changes.{NewKeysStand};
ghost use Rattle.xod_tables.specs.Touches.{TouchesShowAsWrites};
ghost use Rattle.xod_tables.specs.Laws.{
  EmptyTreesAreNoRows,
  FrontsDecide,
  KeysAreApart,
  KeysRise,
  OneRows,
  RowsAreReadExactly,
  SoundRowsHaveTables,
  SoundTreesAnswer,
  TablesAreTested,
};

/// What is read from trees are exactly the rows that they are the tables of.
pub fn rows_are_read_exactly()
    ensures { RowsAreReadExactly }
{}

/// No trees are the tables of two rows.
pub fn one_rows()
    ensures { OneRows }
{}

/// All sound rows have tables.
pub fn sound_rows_have_tables()
    ensures { SoundRowsHaveTables }
{}

/// A store that was just made has no rows.
pub fn empty_trees_are_no_rows()
    ensures { EmptyTreesAreNoRows }
{}

/// Whether trees are the tables of rows can be tested.
pub fn tables_are_tested()
    ensures { TablesAreTested }
{}

/// A walk over keys with one number or id before them stays among those, and goes on by what follows.
pub fn fronts_decide()
    ensures { FrontsDecide }
{}

/// A walk over a tree by rising key meets its entries in the order of what the keys are made of.
pub fn keys_rise()
    ensures { KeysRise }
{
    xod_dup::joined_keys_are_in_the_order_of_pairs();
}

/// No two properties have one key, no two links, and no two properties of entities an entry in the index.
pub fn keys_are_apart()
    ensures { KeysAreApart }
{}

/// A look-up in the tables of rows is one in the rows.
pub fn sound_trees_answer()
    ensures { SoundTreesAnswer }
{}

/// What a transaction's overlay has touched shows in the trees that it sees as the writes themselves.
pub fn touches_show_as_writes()
    ensures { TouchesShowAsWrites }
{
    xod_overlay::puts_show();
    xod_overlay::removals_show();
}

/// Where the old and the new value of a property have a key in common, the key stays in the index.
pub fn new_keys_stand()
    ensures { NewKeysStand }
{}
