//! Laws of carried maps and of indexes, for keys and values of any types; nothing here runs.
ghost use Rattle.xod_carry.specs.Laws.{
  ChangesAreIndexed,
  ImagesAreFound,
  ListsAreCarried,
  LookUpsDecide,
  NewEntriesAreIndexed,
  PutsAreCarried,
  RemovalsAreCarried,
  RemovalsAreIndexed,
  TablesComeBack,
};

/// A put into a map is a put into its table.
pub fn puts_are_carried<K, X, L, Y>()
    ensures { PutsAreCarried K X L Y }
{}

/// A removal from a map is a removal from its table.
pub fn removals_are_carried<K, X, L, Y>()
    ensures { RemovalsAreCarried K X L Y }
{}

/// The table of the map of a list is that of the list.
pub fn lists_are_carried<K, X, L, Y>()
    ensures { ListsAreCarried K X L Y }
{}

/// A map comes back from its table where its entries do.
pub fn tables_come_back<K, X, L, Y>()
    ensures { TablesComeBack K X L Y }
{}

/// A look-up in a map is one in its table.
pub fn images_are_found<K, X, L, Y>()
    ensures { ImagesAreFound K X L Y }
{}

/// What a new entry of a map puts into its index.
pub fn new_entries_are_indexed<K, X, L, Y>()
    ensures { NewEntriesAreIndexed K X L Y }
{}

/// What an entry that goes takes out of an index.
pub fn removals_are_indexed<K, X, L, Y>()
    ensures { RemovalsAreIndexed K X L Y }
{}

/// What an entry with another value does to an index.
pub fn changes_are_indexed<K, X, L, Y>()
    ensures { ChangesAreIndexed K X L Y }
{}

/// A map is told by its entries and their number.
pub fn look_ups_decide<K, X>()
    ensures { LookUpsDecide K X }
{}
