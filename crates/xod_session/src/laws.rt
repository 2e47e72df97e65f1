//! What always holds of sessions, books and orders, each the clause of a function that does nothing.
ghost use Rattle.xod_session.specs.Laws.{
  ItemsMakeAJournal,
  OrderDeterminesJournal,
  OthersLeaveASession,
  SessionsAgree,
  SessionsGoOn,
  SessionsMakeAWorld,
};

/// Entries of others leave a session as it is.
pub fn others_leave_a_session()
    ensures { OthersLeaveASession }
{}

/// A session goes on over a journal that goes on.
pub fn sessions_go_on()
    ensures { SessionsGoOn }
{}

/// Where a journal stands and a session has come, the books have the session's transaction open, and its changes fit.
pub fn sessions_agree()
    ensures { SessionsAgree }
{
    xod_journal::expansions_fit();
    xod_journal::names_stay();
    xod_journal::same_is_equal();
}

/// Where a journal stands, each entry is a session's, and each session has come somewhere by it, it is legal.
pub fn sessions_make_a_world()
    ensures { SessionsMakeAWorld }
{}

/// Taking items one by one makes a journal, and each session is what its own script and that journal make of it.
pub fn items_make_a_journal()
    ensures { ItemsMakeAJournal }
{}

/// The printed order determines the journal.
pub fn order_determines_journal()
    ensures { OrderDeterminesJournal }
{
    xod_journal::same_is_equal();
}
