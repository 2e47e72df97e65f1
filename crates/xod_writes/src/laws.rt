//! Laws of what changes write; nothing here runs.
ghost use Rattle.xod_writes.specs.Laws.{TablesFollowAllChanges, TablesFollowChanges};

/// The trees after a change's writes are the tables of the rows after the change.
pub fn tables_follow_changes()
    ensures { TablesFollowChanges }
{
    xod_journal::same_is_equal();
}

/// The trees after the writes of a list of changes are the tables of the rows after all of them.
pub fn tables_follow_all_changes()
    ensures { TablesFollowAllChanges }
{
    tables_follow_changes();
}
