//! The laws that a transaction stands on; nothing here runs.
ghost use Rattle.xod_estxn.specs.Laws.{TxnLaws};

/// What holds of acts, of changes and of touches.
pub(crate) fn know_laws()
    ensures { TxnLaws }
{
    xod_commit::touches_stay_fit();
    xod_overlay::untouched_trees_are_those_below();
    xod_tables::touches_show_as_writes();
    xod_journal::expansions_fit();
    xod_journal::names_stay();
    xod_writes::tables_follow_all_changes();
}
