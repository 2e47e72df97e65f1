//! Room in a list, taken before what is to be put there is made.
ghost use Rattle.std.specs.Prelude.{◌≡◌, ◌≤◌, ◌<◌, ◌+◌, [], IfOk, OnOk, vec_len, vec_capacity};
ghost use Rattle.xod_journal.specs.Seats.{entered};

use std::alloc::Global;
use xod_base::Memory;
use xod_journal::{JournalEntry, Step};

/// An empty list with room for as many items.
pub fn with_room<T>(alloc: Global, count: usize) -> Result<Vec<T>, Memory>
    ensures items { IfOk result (λ list. list.items ≡ []) }
    ensures len { IfOk result (λ list. vec_len list ≡ 0) }
    ensures room { IfOk result (λ list. count ≤ vec_capacity list) }
{
    Ok(Vec::with_capacity(alloc, count)?)
}

/// Makes room for as many items more. The items stay, and so does all room that there is.
pub fn make_room<T>(items: &mut Vec<T>, count: usize) -> Result<(), Memory>
    ensures items { items.new.items ≡ items.old.items }
    ensures len { vec_len items.new ≡ vec_len items.old }
    ensures room { OnOk result (vec_len items.new + count ≤ vec_capacity items.new) }
    ensures grows { vec_capacity items.old ≤ vec_capacity items.new }
{
    items.reserve(count)?;
    Ok(())
}

/// Puts a step at the end of a journal that has room for it.
pub fn enter(journal: &mut Vec<JournalEntry>, actor: u32, step: Step)
    requires { vec_len journal.old < vec_capacity journal.old }
    ensures items { journal.new.items ≡ entered journal.old.items actor step }
    ensures len { vec_len journal.new ≡ vec_len journal.old + 1 }
    ensures capacity { vec_capacity journal.new ≡ vec_capacity journal.old }
{
    journal.push_reserved(JournalEntry { actor, step });
}
