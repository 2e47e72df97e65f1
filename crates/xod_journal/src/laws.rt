//! What always holds of changes, expansions and journals, each the clause of a function that does nothing.
ghost use Rattle.xod_journal.specs.Laws.{
  BooksNeedNoRows,
  ChangesKeepSound,
  ExpansionsFit,
  JournalsGoOn,
  NamesStay,
  RowsAreThoseOfTheBase,
  SameIsEqual,
};

/// A change that fits sound rows leaves sound rows.
pub fn changes_keep_sound()
    ensures { ChangesKeepSound }
{}

/// Each change of an act's expansion fits the rows after those before it.
pub fn expansions_fit()
    ensures { ExpansionsFit }
{}

/// Sound rows have names of 1 to 255 bytes alone, and a change that fits leaves it so.
pub fn names_stay()
    ensures { NamesStay }
{}

/// The test of two values answers whether they are equal, also where they may be absent.
pub fn same_is_equal()
    ensures { SameIsEqual }
{}

/// Where a journal has come, it goes on as a journal that begins there.
pub fn journals_go_on()
    ensures { JournalsGoOn }
{}

/// Where a journal stands, its books are those that go by its entries without any rows.
pub fn books_need_no_rows()
    ensures { BooksNeedNoRows }
{}

/// The newest rows are those after the newest commit, and each open transaction has the rows after its base.
pub fn rows_are_those_of_the_base()
    ensures { RowsAreThoseOfTheBase }
{}
