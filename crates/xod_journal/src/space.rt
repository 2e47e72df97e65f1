//! What a session asks of its open transaction, and of the store.
//!
//! Private statements go to the transaction, shared steps to the store. No call of either waits. What each answers, and
//! what stands afterwards, is in `specs/Locals.antt`, `specs/Spaces.antt` and `specs/Begins.antt`.
ghost use base.Fml.{GName};
ghost use Rattle.std.specs.Prelude.{◌≡◌, ◌⊎◌, ℕ, Bool, List, is_some, IsTrue, IfOk, OnOk, OnErr, IfErr};
ghost use Rattle.xod_base.specs.Causes.{Rose};
ghost use Rattle.xod_base.specs.Queries.{is_named};
ghost use Rattle.xod_journal.specs.declared.journal.Step.TheVariants as step;
ghost use Rattle.xod_journal.specs.Begins.{DoesNotBegin};
ghost use Rattle.xod_journal.specs.Changes.{has_names};
ghost use Rattle.xod_journal.specs.Locals.{Acts, CountsFaults, Finds, IsExpected, KeepsLocal};
ghost use Rattle.xod_journal.specs.Seats.{entered};
ghost use Rattle.xod_journal.specs.Shows.{shown_of};
ghost use Rattle.xod_journal.specs.Spaces.{Begins, CanStop, Flushes, HasNoTxn, HasNotStopped, IsFlushed, IsOpen, IsSpace, KeepsSpace, Refuses, Reverts, SpaceView, Syncs, faults_in};
ghost use Rattle.xod_journal.specs.Txns.{OpenTxn};

use crate::journal::Origin;
use std::alloc::Global;
use xod_base::{
    Act, ActAnswer, Answer, Cause, EntityId, FlushAnswer, Memory, Mode, Query, Shown, StmtError,
};

/// Why a begin did not begin.
#[derive(Clone, Copy, Debug, PartialEq, Eq)]
pub enum BeginFault {
    /// Another transaction is in the way: the least actor who has such a one open.
    Busy { holder: u32 },
    /// The store could not begin it.
    Cause(Cause),
}

impl From<Memory> for BeginFault {
    ghost use Rattle.xod_base.specs.declared.causes.Cause.TheVariants as cause;
    ghost use Rattle.xod_journal.specs.declared.space.BeginFault.{BeginFault};

    ghost from_gives = { λ _ fault. fault ≡ BeginFault.Cause cause.Memory };

    fn from(_: Memory) -> Self {
        BeginFault::Cause(Cause::Memory)
    }
}

/// An open transaction, as a session sees it.
///
/// `Device` comes only where its count of faults rose in the call, and `Damaged` never where it tells its rows.
pub trait Local {
    /// Whether it tells its rows.
    ghost tells: { Self → Bool };

    /// Its mode, its base commit, its own changes, and its rows where it tells them.
    ghost txn: { Self → OpenTxn };

    /// The references that it holds, so that whoever lent them knows after a call that they are still there.
    ghost refs: { Self → List GName };

    /// How often the outside failed.
    ghost faults: { Self → ℕ };

    /// Makes the changes of an act. A refusal changes nothing.
    fn act(&mut self, alloc: Global, act: &Act) -> Result<ActAnswer, StmtError>
        requires { IsTrue (has_names act.now) }
        ensures acts { Acts (tells self.old) act.now (txn self.old) (txn self.new) result }
        ensures counts { CountsFaults (faults self.old) (faults self.new) result }
        ensures tells { tells self.new ≡ tells self.old }
        ensures refs { refs self.new ≡ refs self.old };

    /// What belongs to an entity, or the refusal where it is not there.
    fn show(&mut self, alloc: Global, id: EntityId) -> Result<Shown, StmtError>
        ensures shows { IsTrue (tells self.old)
            → IsExpected (shown_of ((txn self.old).rows) id) result }
        ensures counts { CountsFaults (faults self.old) (faults self.new) result }
        ensures keeps { KeepsLocal tells txn refs faults self.old self.new };

    /// The ids that a query names. Only the outside and memory refuse it.
    fn query(&mut self, alloc: Global, query: &Query) -> Result<Answer, StmtError>
        requires { IsTrue (is_named query.now) }
        ensures finds { Finds (tells self.old) query.now (txn self.old) result }
        ensures counts { CountsFaults (faults self.old) (faults self.new) result }
        ensures keeps { KeepsLocal tells txn refs faults self.old self.new };
}

/// The store, as a session sees it: a journal of shared steps.
///
/// A call that answers Ok appends the one entry of its step. Every other answer appends nothing, and leaves the
/// transaction as it was but for its count. `Busy` goes before every cause; else `Broken` comes exactly where the space
/// was broken before the call. `Device` comes only where a count rose in the call, `Damaged` never where the space tells
/// its rows, and `Spent` from a flush alone. Each "exactly" yields to want of memory.
pub trait Space {
    type Open: Local;

    /// What it has.
    ghost view: { Self → SpaceView };

    /// Begins a transaction, and answers the commit that it sees.
    fn begin(
        &mut self,
        alloc: Global,
        actor: u32,
        mode: Mode,
    ) -> Result<(u64, Self::Open), BeginFault>
        requires { HasNoTxn (view self.old) actor }
        ensures begins { IfOk result (λ begun. Begins actor mode (view self.old) (view self.new)
            begun.0 (Self.Open.tells begun.1) (Self.Open.txn begun.1)) }
        ensures refused { IfErr result (DoesNotBegin mode (view self.old) (view self.new)) }
        ensures keeps { KeepsSpace (view self.old) (view self.new) };

    /// Makes a transaction's changes a commit, where no other commit came since its base.
    ///
    /// After a commit with a fault the entry stands, and the transaction is as it was but for its count.
    fn flush(
        &mut self,
        alloc: Global,
        actor: u32,
        txn: &mut Self::Open,
    ) -> Result<FlushAnswer, Cause>
        requires { IsOpen (view self.old) actor
            (Self.Open.tells txn.old) (Self.Open.txn txn.old) }
        ensures flushes { IfOk result (λ answer.
            Flushes actor (view self.old) (view self.new) answer (Self.Open.txn txn.old)) }
        ensures flushed { IfOk result (λ answer.
            IsFlushed Self.Open.tells Self.Open.txn Self.Open.refs Self.Open.faults
            (view self.old) (view self.new) answer txn.old txn.new) }
        ensures refused { IfErr result (Refuses (view self.old) (view self.new)
            (Rose ((view self.old).faults) ((view self.new).faults)
            ⊎ Rose (Self.Open.faults txn.old) (Self.Open.faults txn.new))
            (IsTrue ((view self.new).is_last))) }
        ensures kept { OnErr result (KeepsLocal Self.Open.tells Self.Open.txn Self.Open.refs
            Self.Open.faults txn.old txn.new) }
        ensures keeps { KeepsSpace (view self.old) (view self.new) };

    /// Drops a transaction's changes, and lets it see the newest commit, which it answers.
    fn revert(&mut self, alloc: Global, actor: u32, txn: &mut Self::Open) -> Result<u64, Cause>
        requires { IsOpen (view self.old) actor
            (Self.Open.tells txn.old) (Self.Open.txn txn.old) }
        ensures reverts { IfOk result (λ commit. Reverts actor (view self.old) (view self.new)
            commit (Self.Open.txn txn.old) (Self.Open.tells txn.new) (Self.Open.txn txn.new)) }
        ensures refused { IfErr result (Refuses (view self.old) (view self.new)
            (Rose ((view self.old).faults) ((view self.new).faults)
            ⊎ Rose (Self.Open.faults txn.old) (Self.Open.faults txn.new)) ⊥) }
        ensures kept { OnErr result (KeepsLocal Self.Open.tells Self.Open.txn Self.Open.refs
            Self.Open.faults txn.old txn.new) }
        ensures keeps { KeepsSpace (view self.old) (view self.new) };

    /// Gives a transaction back, with its changes. For want of memory it hands it out again.
    fn end(&mut self, actor: u32, txn: Self::Open) -> Result<(), Self::Open>
        requires { IsOpen (view self.old) actor (Self.Open.tells txn) (Self.Open.txn txn) }
        ensures entry { OnOk result ((view self.new).journal
            ≡ entered ((view self.old).journal) actor step.End) }
        ensures refused { OnErr result ((view self.new).journal ≡ (view self.old).journal) }
        ensures kept { IfErr result (KeepsLocal Self.Open.tells Self.Open.txn Self.Open.refs
            Self.Open.faults txn) }
        ensures keeps { KeepsSpace (view self.old) (view self.new) };

    /// Makes every commit so far durable.
    fn sync(&mut self, actor: u32) -> Result<(), Cause>
        requires { HasNotStopped (view self.old) actor }
        ensures syncs { OnOk result (Syncs actor (view self.old) (view self.new)) }
        ensures refused { IfErr result (Refuses (view self.old) (view self.new)
            (Rose ((view self.old).faults) ((view self.new).faults)) ⊥) }
        ensures keeps { KeepsSpace (view self.old) (view self.new) };

    /// Stops a session at a line, and takes its transaction back. It takes no memory.
    fn stop(&mut self, actor: u32, txn: Option<Self::Open>, line: u32, cause: Cause, origin: Origin)
        requires { CanStop (view self.old) actor (is_some txn)
            (faults_in Self.Open.faults txn) cause origin }
        ensures entry { (view self.new).journal
            ≡ entered ((view self.old).journal) actor (step.Stop line cause origin) }
        ensures keeps { KeepsSpace (view self.old) (view self.new) };

    // What always holds of a space, also where no call has looked.
    ghost lawful: { (space : Self) → IsSpace (view space) };
}
