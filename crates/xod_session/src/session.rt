//! A session over any space.
//!
//! It is handed a script and plays it statement by statement: private statements over its open transaction, shared steps
//! over a space. It keeps its printed lines. Where it is by the space's journal is `Plays` of `specs/Seats.antt`, and
//! what its calls come to stands in `specs/Calls.antt`.
ghost use Rattle.std.specs.Prelude.{◌≡◌, false, is_some};
ghost use Rattle.xod_session.specs.Dialogues.{HasStopRoom};

use crate::course::{Course, SharedStep};
use crate::dialogue::Dialogue;
use crate::laws::sessions_agree;
use crate::row::{Halt, answer_row};
use crate::turn::{Taken, take};
use std::alloc::Global;
use std::mem;
use xod_base::{Bytes, Cause, Memory, Mode, Query};
use xod_journal::{Local, Origin, Space};
use xod_lang::SessionScript;

/// What a session does next.
#[derive(Clone, Copy, Debug, PartialEq, Eq)]
pub enum Next {
    Begin { mode: Mode },
    Flush,
    Revert,
    End,
    Sync,
    /// A prepared statement was not answered, so the session stops there.
    Stop { line: u32, cause: Cause },
    /// The script has ended, or the session has stopped.
    Finished,
}

/// What a call of a session came to.
#[derive(Clone, Copy, Debug, PartialEq, Eq)]
pub enum Progress {
    /// It took its next shared step.
    Stepped,
    /// Another transaction is in the way of its begin: nothing was done.
    Busy { holder: u32 },
    /// It stopped at this line.
    Stopped { line: u32, cause: Cause },
    /// There was nothing to do.
    Finished,
}

/// A session. An open transaction that is not `Drop` has to be given back, by `finish`; without one `let_go` serves too.
#[derive(Drop)]
pub struct Session<O> {
    pub(crate) actor: u32,
    pub(crate) course: Course,
    pub(crate) said: Dialogue,
    pub(crate) txn: Option<O>,
    /// The statement that could not be answered.
    pub(crate) met: Option<Halt>,
    ghost held: { is_some txn ≡ course.is_open },
    ghost room: { course.place.stopped ≡ false → HasStopRoom said },
}

/// Puts a transaction in its place.
fn put<O>(place: &mut Option<O>, txn: Option<O>)
    requires { place.old ≡ None }
    ensures { place.new ≡ txn }
{
    let old = mem::replace(place, txn);
    let None = old else { unreachable!() };
}

impl<O: Local> Session<O> {
    ghost use Rattle.std.specs.Prelude.{◌≡◌, ◌≤◌, ◌∷◌, [], Some, None, false, true, IfOk, IfSome, IsTrue, MatchOption};
    ghost use Rattle.xod_lang.specs.WellFormed.{is_well_formed_session};
    ghost use Rattle.xod_journal.specs.declared.journal.Origin.TheVariants.{Order};
    ghost use Rattle.xod_journal.specs.declared.journal.Step.TheVariants as step;
    ghost use Rattle.xod_journal.specs.Spaces.{KeepsSpace, SpaceView};
    ghost use Rattle.xod_session.specs.Calls.{Finishes, Halts, IsFresh, IsLeft, IsPrepared, IsSameSession, PreparesTo, Progresses, can_halt_at, front_of, next_of};
    ghost use Rattle.xod_session.specs.Courses.{IsReady, answered_count};
    ghost use Rattle.xod_session.specs.Seats.{IsSaid, IsStoppable, Plays, counts_in, pending_in, text_in, view_of, with_pending};
    ghost use Rattle.xod_session.specs.Sessions.{private_before};

    /// A session at the start of its script, over a space without entries.
    pub fn new(alloc: Global, script: SessionScript, actor: u32) -> Result<Session<O>, Memory>
        requires { IsTrue (is_well_formed_session script) }
        ensures plays { IfOk result (λ session. (space : SpaceView)
            → space.journal ≡ [] → 1 ≤ actor → actor ≤ space.sessions
            → Plays O.tells O.txn O.faults space session) }
        ensures actor { IfOk result (λ session. session.actor ≡ actor) }
        ensures script { IfOk result (λ session. session.course.script ≡ script.statements) }
        ensures fresh { IfOk result IsFresh }
        ensures closed { IfOk result (λ session. session.course.is_open ≡ false) }
    {
        let SessionScript {
            name: _,
            statements,
        } = script;
        let said = Dialogue::new(alloc)?;
        Ok(Session {
            actor,
            course: Course::new(statements),
            said,
            txn: None,
            met: None,
        })
    }

    /// Answers the private statements before the next shared step, or with a line those before that line.
    pub fn prepare(&mut self, alloc: Global, until: Option<u32>)
        ensures plays { (space : SpaceView) → Plays O.tells O.txn O.faults space self.old
            → Plays O.tells O.txn O.faults space self.new }
        ensures prepares { PreparesTo until self.old self.new }
    {
        if self.course.is_stopped() {
            return;
        }
        if self.met.is_some() {
            return;
        }
        let Some(txn) = &mut self.txn else {
            return;
        };
        let row = answer_row(&mut self.said, txn, alloc, self.course.rest(), until);
        self.course.skip(row.count);
        self.met = row.met;
    }

    /// What it does next.
    pub fn next(&self) -> Next
        ensures { result ≡ next_of self.now }
    {
        if self.course.is_stopped() {
            return Next::Finished;
        }
        let Some((_, asked)) = self.course.next() else {
            return Next::Finished;
        };
        if let Some(halt) = self.met {
            return Next::Stop {
                line: halt.line,
                cause: halt.cause,
            };
        }
        match asked {
            SharedStep::Begin { mode } => Next::Begin { mode },
            SharedStep::Flush => Next::Flush,
            SharedStep::Revert => Next::Revert,
            SharedStep::End => Next::End,
            SharedStep::Sync => Next::Sync,
        }
    }

    /// Stops, and gives the transaction back.
    fn stop<S: Space<Open = O>>(&mut self, space: &mut S, line: u32, cause: Cause, origin: Origin)
        requires { IsStoppable O.txn O.faults (S.view space.old) (view_of self.old) line cause origin }
        ensures plays { Plays O.tells O.txn O.faults (S.view space.new) self.new }
        ensures halts { Halts (S.view space.old) (S.view space.new) self.old self.new (step.Stop line cause origin) }
        ensures keeps { KeepsSpace (S.view space.old) (S.view space.new) }
    {
        let txn = self.txn.take();
        space.stop(self.actor, txn, line, cause, origin);
        self.said.put_stop(line, cause);
        self.course.halt();
        self.met = None;
    }

    /// Takes the next shared step, or stops there.
    fn take_step<S: Space<Open = O>>(
        &mut self,
        alloc: Global,
        space: &mut S,
        line: u32,
        asked: SharedStep,
    ) -> Progress
        requires plays { Plays O.tells O.txn O.faults (S.view space.old) self.old }
        requires going { self.old.course.place.stopped ≡ false }
        requires free { self.old.met ≡ None }
        requires ready { IsReady self.old.course }
        requires front { front_of self.old.course ≡ Some (line, asked) }
        ensures plays { Plays O.tells O.txn O.faults (S.view space.new) self.new }
        ensures came { Progresses O.faults (S.view space.old) (S.view space.new) self.old self.new result }
        ensures same { IsSameSession self.old self.new }
        ensures keeps { KeepsSpace (S.view space.old) (S.view space.new) }
    {
        sessions_agree();
        xod_journal::names_stay();
        if self.said.make_room().is_err() {
            self.stop(space, line, Cause::Memory, Origin::Run);
            return Progress::Stopped {
                line,
                cause: Cause::Memory,
            };
        }
        match take(space, alloc, self.actor, asked, self.txn.take()) {
            Taken::Done { reply, fault, txn } => {
                self.course.place(&reply);
                self.said.put_step(line, &reply);
                put(&mut self.txn, txn);
                let Some(cause) = fault else {
                    return Progress::Stepped;
                };
                self.stop(space, line, cause, Origin::Run);
                Progress::Stopped { line, cause }
            }
            Taken::Busy { holder } => Progress::Busy { holder },
            Taken::Refused { cause, txn } => {
                put(&mut self.txn, txn);
                self.stop(space, line, cause, Origin::Run);
                Progress::Stopped { line, cause }
            }
        }
    }

    /// Takes the step that `next` names. Where the store can't take it, or can't go on behind it, the session stops.
    pub fn step<S: Space<Open = O>>(&mut self, alloc: Global, space: &mut S) -> Progress
        requires plays { Plays O.tells O.txn O.faults (S.view space.old) self.old }
        requires prepared { IsPrepared self.old }
        ensures plays { Plays O.tells O.txn O.faults (S.view space.new) self.new }
        ensures came { Progresses O.faults (S.view space.old) (S.view space.new) self.old self.new result }
        ensures same { IsSameSession self.old self.new }
        ensures keeps { KeepsSpace (S.view space.old) (S.view space.new) }
    {
        if self.course.is_stopped() {
            return Progress::Finished;
        }
        let Some((line, asked)) = self.course.next() else {
            return Progress::Finished;
        };
        if let Some(halt) = self.met {
            self.stop(space, halt.line, halt.cause, Origin::Run);
            return Progress::Stopped {
                line: halt.line,
                cause: halt.cause,
            };
        }
        self.take_step(alloc, space, line, asked)
    }

    /// Whether a stop with this line can be taken: at a statement from the one behind the last shared step up to the
    /// next shared step, or at a flush that has just committed.
    pub fn can_halt(&self, line: u32) -> bool
        ensures { result ≡ can_halt_at self.now.course line }
    {
        !self.course.is_stopped() && self.course.can_stop(line)
    }

    /// Takes a stop that the order gives. The private statements before its line were answered since the last shared
    /// step, and no others.
    pub fn halt<S: Space<Open = O>>(&mut self, space: &mut S, line: u32, cause: Cause)
        requires plays { Plays O.tells O.txn O.faults (S.view space.old) self.old }
        requires can { can_halt_at self.old.course line ≡ true }
        requires answered { private_before line self.old.course.since ≡ answered_count self.old.course }
        ensures plays { Plays O.tells O.txn O.faults (S.view space.new) self.new }
        ensures halts { Halts (S.view space.old) (S.view space.new) self.old self.new
            (step.Stop line cause Order) }
        ensures keeps { KeepsSpace (S.view space.old) (S.view space.new) }
    {
        self.stop(space, line, cause, Origin::Order);
    }

    /// The next of the queries that missed, in their order; each is handed out once.
    pub fn next_missed(&mut self) -> Option<Query>
        ensures missed { MatchOption result ((pending_in self.old ≡ []) × (pending_in self.new ≡ []))
            (λ query. pending_in self.old ≡ query ∷ pending_in self.new) }
        ensures others { view_of self.new ≡ with_pending (view_of self.old) (pending_in self.new) }
        ensures plays { (space : SpaceView) → Plays O.tells O.txn O.faults space self.old
            → Plays O.tells O.txn O.faults space self.new }
    {
        self.said.next_missed()
    }

    /// How many queries hit, and how many missed.
    pub fn counts(&self) -> (u64, u64)
        ensures { result ≡ counts_in self.now }
    {
        (self.said.hits, self.said.misses)
    }

    /// The printed lines.
    pub fn text(&self) -> &[u8]
        ensures { result.now ≡ text_in self.now }
    {
        self.said.text.as_slice()
    }

    /// The line of the next statement, where a transaction is open.
    fn left(&self) -> Option<u32>
        ensures none { result ≡ None → self.now.course.is_open ≡ false }
        ensures line { IfSome result (IsLeft self.now.course) }
    {
        if self.course.is_stopped() || self.txn.is_none() {
            return None;
        }
        let statement = self.course.rest().first()?;
        Some(statement.line)
    }

    /// Lets a session go that has no transaction open.
    pub fn let_go(self)
        requires { self.course.is_open ≡ false }
    {
        let Session {
            actor: _,
            course: _,
            said: _,
            txn,
            met: _,
        } = self;
        let None = txn else { unreachable!() };
    }

    /// Ends a session, and hands out its printed lines. An open transaction is given back with a stop at the next
    /// statement; its cause means nothing.
    pub fn finish<S: Space<Open = O>>(self, space: &mut S) -> Bytes
        requires { Plays O.tells O.txn O.faults (S.view space.old) self }
        ensures said { IsTrue (S.view space.new).tells → IsSaid (S.view space.new).start
            (S.view space.new).journal self.actor self.course.script result }
        ensures finishes { Finishes (S.view space.old) (S.view space.new) self }
        ensures keeps { KeepsSpace (S.view space.old) (S.view space.new) }
    {
        let mut session = self;
        if let Some(line) = session.left() {
            session.stop(space, line, Cause::Memory, Origin::Left);
        }
        let Session {
            actor: _,
            course: _,
            said,
            txn,
            met: _,
        } = session;
        let None = txn else { unreachable!() };
        said.into_text()
    }
}
