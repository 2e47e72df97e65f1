//! For which causes the stops of a run came. The rule stands in `specs/Stops.antt`.
ghost use Rattle.std.specs.Prelude.{◌≡◌};
ghost use Rattle.xod_play.specs.Stops.{has_met, is_damage, is_fault, is_memory, is_met as met_by, is_spent};

use xod_base::Cause;
use xod_journal::{JournalEntry, Origin, Step};

/// Whether a step is a stop that this run met for a fault of the device.
fn is_fault_met(step: &Step) -> bool
    ensures { result ≡ met_by is_fault step.now }
{
    match step {
        Step::Stop {
            cause,
            origin: Origin::Run,
            ..
        } => matches!(cause, Cause::Device | Cause::Broken),
        _ => false,
    }
}

/// Whether a step is a stop that this run met for damaged bytes.
fn is_damage_met(step: &Step) -> bool
    ensures { result ≡ met_by is_damage step.now }
{
    match step {
        Step::Stop {
            cause,
            origin: Origin::Run,
            ..
        } => matches!(cause, Cause::Damaged),
        _ => false,
    }
}

/// Whether a step is a stop that this run met for a number that there is not.
fn is_spent_met(step: &Step) -> bool
    ensures { result ≡ met_by is_spent step.now }
{
    match step {
        Step::Stop {
            cause,
            origin: Origin::Run,
            ..
        } => matches!(cause, Cause::Spent),
        _ => false,
    }
}

/// Whether a step is a stop that this run met for want of memory.
fn is_memory_met(step: &Step) -> bool
    ensures { result ≡ met_by is_memory step.now }
{
    match step {
        Step::Stop {
            cause,
            origin: Origin::Run,
            ..
        } => matches!(cause, Cause::Memory),
        _ => false,
    }
}

/// Whether this run met a stop for a fault of the device, also an earlier one.
pub fn meets_fault(journal: &[JournalEntry]) -> bool
    ensures { result ≡ has_met is_fault journal.now }
{
    journal.iter().any(|entry| is_fault_met(&entry.step))
}

/// Whether this run met a stop for damaged bytes.
pub fn meets_damage(journal: &[JournalEntry]) -> bool
    ensures { result ≡ has_met is_damage journal.now }
{
    journal.iter().any(|entry| is_damage_met(&entry.step))
}

/// Whether this run met a stop for a number that there is not.
pub fn meets_spent(journal: &[JournalEntry]) -> bool
    ensures { result ≡ has_met is_spent journal.now }
{
    journal.iter().any(|entry| is_spent_met(&entry.step))
}

/// Whether this run met a stop for want of memory.
pub fn wants_memory(journal: &[JournalEntry]) -> bool
    ensures { result ≡ has_met is_memory journal.now }
{
    journal.iter().any(|entry| is_memory_met(&entry.step))
}
