//! Shared steps, taken on any space.
//!
//! Nothing here knows a script: it is handed the step and the open transaction, and hands back what came of them. What
//! that is stands in `specs/Steps.antt`.
ghost use Rattle.std.specs.Prelude.{◌≡◌, IsTrue, None, Some, is_some};
ghost use Rattle.xod_journal.specs.Spaces.{KeepsSpace, without_fault};
ghost use Rattle.xod_session.specs.declared.course.SharedStep.TheVariants as shared;
ghost use Rattle.xod_session.specs.Courses.{FitsOpen};
ghost use Rattle.xod_session.specs.Steps.{IsHeld, IsTaken, fault_in};

use crate::course::SharedStep;
use std::alloc::Global;
use xod_base::{Cause, FlushAnswer, Mode, Reply};
use xod_journal::{BeginFault, Local, Space};

/// What a shared step came to. An open transaction has to be given back.
pub enum Taken<O> {
    /// It was taken: its answer, the transaction behind it, and a fault for which the session stops at once.
    Done {
        reply: Reply,
        fault: Option<Cause>,
        txn: Option<O>,
    },
    /// Another transaction is in the way of a begin.
    Busy {
        holder: u32,
    },
    /// The store could not take it.
    Refused {
        cause: Cause,
        txn: Option<O>,
    },
}

/// Takes a begin.
fn take_begin<O: Local, S: Space<Open = O>>(
    space: &mut S,
    alloc: Global,
    actor: u32,
    mode: Mode,
) -> Taken<O>
    requires { IsHeld O.tells O.txn (S.view space.old) actor None }
    ensures taken { IsTaken O.tells O.txn O.faults (S.view space.old) (S.view space.new)
        actor (shared.Begin mode) None result }
    ensures keeps { KeepsSpace (S.view space.old) (S.view space.new) }
{
    match space.begin(alloc, actor, mode) {
        Ok((commit, txn)) => Taken::Done {
            reply: Reply::At { commit },
            fault: None,
            txn: Some(txn),
        },
        Err(BeginFault::Busy { holder }) => Taken::Busy { holder },
        Err(BeginFault::Cause(cause)) => Taken::Refused { cause, txn: None },
    }
}

/// A flush's answer without its fault, and the fault.
fn parts(answer: FlushAnswer) -> (FlushAnswer, Option<Cause>)
    ensures { result ≡ (without_fault answer, fault_in answer) }
{
    match answer {
        FlushAnswer::Nothing => (FlushAnswer::Nothing, None),
        FlushAnswer::Committed { version, fault } => {
            let fault_free = FlushAnswer::Committed {
                version,
                fault: None,
            };
            (fault_free, fault)
        }
        FlushAnswer::Conflict { base, now } => (FlushAnswer::Conflict { base, now }, None),
    }
}

/// Takes a flush.
fn take_flush<O: Local, S: Space<Open = O>>(
    space: &mut S,
    alloc: Global,
    actor: u32,
    txn: O,
) -> Taken<O>
    requires { IsHeld O.tells O.txn (S.view space.old) actor (Some txn) }
    ensures taken { IsTaken O.tells O.txn O.faults (S.view space.old) (S.view space.new)
        actor shared.Flush (Some txn) result }
    ensures keeps { KeepsSpace (S.view space.old) (S.view space.new) }
{
    xod_journal::same_is_equal();
    let mut txn = txn;
    match space.flush(alloc, actor, &mut txn) {
        Ok(answer) => {
            let (answer, fault) = parts(answer);
            Taken::Done {
                reply: Reply::Flushed(answer),
                fault,
                txn: Some(txn),
            }
        }
        Err(cause) => Taken::Refused {
            cause,
            txn: Some(txn),
        },
    }
}

/// Takes a revert.
fn take_revert<O: Local, S: Space<Open = O>>(
    space: &mut S,
    alloc: Global,
    actor: u32,
    txn: O,
) -> Taken<O>
    requires { IsHeld O.tells O.txn (S.view space.old) actor (Some txn) }
    ensures taken { IsTaken O.tells O.txn O.faults (S.view space.old) (S.view space.new)
        actor shared.Revert (Some txn) result }
    ensures keeps { KeepsSpace (S.view space.old) (S.view space.new) }
{
    let mut txn = txn;
    match space.revert(alloc, actor, &mut txn) {
        Ok(commit) => Taken::Done {
            reply: Reply::At { commit },
            fault: None,
            txn: Some(txn),
        },
        Err(cause) => Taken::Refused {
            cause,
            txn: Some(txn),
        },
    }
}

/// Takes an end.
fn take_end<O: Local, S: Space<Open = O>>(space: &mut S, actor: u32, txn: O) -> Taken<O>
    requires { IsHeld O.tells O.txn (S.view space.old) actor (Some txn) }
    ensures taken { IsTaken O.tells O.txn O.faults (S.view space.old) (S.view space.new)
        actor shared.End (Some txn) result }
    ensures keeps { KeepsSpace (S.view space.old) (S.view space.new) }
{
    match space.end(actor, txn) {
        Ok(()) => Taken::Done {
            reply: Reply::Ended,
            fault: None,
            txn: None,
        },
        Err(back) => Taken::Refused {
            cause: Cause::Memory,
            txn: Some(back),
        },
    }
}

/// Takes a sync.
fn take_sync<O: Local, S: Space<Open = O>>(space: &mut S, actor: u32, txn: Option<O>) -> Taken<O>
    requires { IsHeld O.tells O.txn (S.view space.old) actor txn }
    ensures taken { IsTaken O.tells O.txn O.faults (S.view space.old) (S.view space.new)
        actor shared.Sync txn result }
    ensures keeps { KeepsSpace (S.view space.old) (S.view space.new) }
{
    match space.sync(actor) {
        Ok(()) => Taken::Done {
            reply: Reply::Synced,
            fault: None,
            txn,
        },
        Err(cause) => Taken::Refused { cause, txn },
    }
}

/// Takes a shared step.
pub fn take<O: Local, S: Space<Open = O>>(
    space: &mut S,
    alloc: Global,
    actor: u32,
    asked: SharedStep,
    txn: Option<O>,
) -> Taken<O>
    requires held { IsHeld O.tells O.txn (S.view space.old) actor txn }
    requires fits { FitsOpen asked (is_some txn) }
    ensures taken { IsTaken O.tells O.txn O.faults (S.view space.old) (S.view space.new)
        actor asked txn result }
    ensures keeps { KeepsSpace (S.view space.old) (S.view space.new) }
{
    match (asked, txn) {
        (SharedStep::Begin { mode }, None) => take_begin(space, alloc, actor, mode),
        (SharedStep::Flush, Some(txn)) => take_flush(space, alloc, actor, txn),
        (SharedStep::Revert, Some(txn)) => take_revert(space, alloc, actor, txn),
        (SharedStep::End, Some(txn)) => take_end(space, actor, txn),
        (SharedStep::Sync, txn) => take_sync(space, actor, txn),
        (_, _) => unreachable!(),
    }
}
