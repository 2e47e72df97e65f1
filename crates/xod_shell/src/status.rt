//! The status that a run's stops and the closing of its store make. The rule stands in `specs/Statuses.antt`.
ghost use Rattle.std.specs.Prelude.{◌≡◌, ◌||◌, if◌then◌else◌};
ghost use Rattle.xod_play.specs.Stops.{has_met, is_damage, is_fault, is_memory, is_spent};
ghost use Rattle.xod_shell.specs.Statuses.{is_refused_for, status_after as status_by};

use xod_base::Cause;
use xod_journal::JournalEntry;
use xod_play::{meets_damage, meets_fault, meets_spent, wants_memory};

/// The status of the first cause that was met.
fn status_of(fault: bool, damage: bool, spent: bool, memory: bool) -> u8
    ensures { result ≡ (if fault then 4 else if damage then 8 else if spent then 10 else if memory then 5 else 0) }
{
    if fault {
        return 4;
    }
    if damage {
        return 8;
    }
    if spent {
        return 10;
    }
    if memory { 5 } else { 0 }
}

/// The status of a run with a journal, whose store was closed, or was not for a cause.
pub(crate) fn status_after(journal: &[JournalEntry], closing: Option<Cause>) -> u8
    ensures { result ≡ status_by journal.now closing }
{
    let fault = meets_fault(journal) || matches!(closing, Some(Cause::Device | Cause::Broken));
    let damage = meets_damage(journal) || matches!(closing, Some(Cause::Damaged));
    let spent = meets_spent(journal) || matches!(closing, Some(Cause::Spent));
    let memory = wants_memory(journal) || matches!(closing, Some(Cause::Memory));
    status_of(fault, damage, spent, memory)
}
