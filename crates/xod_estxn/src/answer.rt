//! What an act is answered.
ghost use Rattle.std.specs.Prelude.{◌≡◌};
ghost use Rattle.xod_journal.specs.Changes.{act_answer};

use xod_base::ActAnswer;
use xod_journal::RowChange;

/// What an act with these changes is answered.
pub(crate) fn answer_to(changes: &[RowChange]) -> ActAnswer
    ensures { result ≡ act_answer changes.now }
{
    match changes {
        [] => ActAnswer::Same,
        [RowChange::AddEntity { id, .. }, ..] => ActAnswer::Made(*id),
        [_, ..] => ActAnswer::Changed,
    }
}
