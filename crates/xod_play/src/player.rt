//! A session that plays over a space, turn by turn.
//!
//! Where a player is between its turns, and what a turn comes to, stands in `specs/Players.antt`.
ghost use Rattle.std.specs.Prelude.{◌≡◌, ◌≤◌, false, true, IfOk, IsTrue, []};
ghost use Rattle.xod_journal.specs.Spaces.{KeepsSpace, SpaceView};
ghost use Rattle.xod_lang.specs.WellFormed.{is_well_formed_session};
ghost use Rattle.xod_lang.specs.declared.script.Turned.TheVariants as turn;
ghost use Rattle.xod_session.specs.Calls.{IsPrepared, next_of};
ghost use Rattle.xod_session.specs.Seats.{Plays};
ghost use Rattle.xod_play.specs.Follows.{has_given_up};
ghost use Rattle.xod_play.specs.Players.{Sits, TakesPart, Turns, is_done as is_done_by, is_stop, is_turn as is_turn_by, script_in};

use std::alloc::Global;
use xod_base::{Cause, Memory, Text};
use xod_journal::{Local, Space};
use xod_lang::{SessionScript, Turned};
use xod_session::{Next, Progress, Session};

/// A session by its name, and whether this run met a stop of it. One with an open transaction that is not `Drop` has to be
/// ended, by `finish_all`.
#[derive(Drop)]
pub struct Player<O> {
    pub(crate) name: Text,
    pub(crate) session: Session<O>,
    pub(crate) gave_up: bool,
}

/// Whether what a session does next is this turn, or the stop of a statement that it could not answer.
fn is_turn(next: Next, wanted: Turned) -> bool
    ensures { result ≡ is_turn_by next wanted }
{
    match (next, wanted) {
        (Next::Begin { .. }, Turned::Begin) => true,
        (Next::Flush, Turned::Flush) => true,
        (Next::Revert, Turned::Revert) => true,
        (Next::End, Turned::End) => true,
        (Next::Sync, Turned::Sync) => true,
        (Next::Stop { .. }, _) => true,
        (_, _) => false,
    }
}

impl<O: Local> Player<O> {
    /// A player at the start of its script, over a space without entries.
    pub fn new(alloc: Global, script: SessionScript, actor: u32) -> Result<Player<O>, Memory>
        requires { IsTrue (is_well_formed_session script) }
        ensures sits { IfOk result (λ player. (space : SpaceView)
            → space.journal ≡ [] → 1 ≤ actor → actor ≤ space.sessions
            → Sits O.tells O.txn O.faults space player) }
        ensures closed { IfOk result (λ player. player.session.course.is_open ≡ false) }
        ensures actor { IfOk result (λ player. player.session.actor ≡ actor) }
        ensures script { IfOk result (λ player. script_in player ≡ script) }
    {
        let name = script.name.try_clone(alloc)?;
        let session = Session::new(alloc, script, actor)?;
        Ok(Player {
            name,
            session,
            gave_up: false,
        })
    }

    /// Whether it has stopped, or is at the end of its script.
    pub fn is_done(&self) -> bool
        ensures { result ≡ is_done_by (next_of self.now.session) }
    {
        matches!(self.session.next(), Next::Finished)
    }

    /// Takes the step of a session whose private statements were answered.
    fn step<S: Space<Open = O>>(&mut self, alloc: Global, space: &mut S, wanted: Turned) -> bool
        requires plays { Plays O.tells O.txn O.faults (S.view space.old) self.old.session }
        requires prepared { IsPrepared self.old.session }
        requires next { is_turn_by (next_of self.old.session) wanted ≡ true }
        requires going { self.old.gave_up ≡ false }
        requires calm { has_given_up (S.view space.old).journal self.old.session.actor ≡ false }
        ensures turns { Turns O.tells O.txn O.faults (S.view space.old) (S.view space.new)
            self.old self.new wanted result }
        ensures keeps { KeepsSpace (S.view space.old) (S.view space.new) }
    {
        match self.session.step(alloc, space) {
            Progress::Stepped => true,
            Progress::Stopped { .. } => {
                self.gave_up = true;
                true
            }
            Progress::Busy { .. } => false,
            Progress::Finished => false,
        }
    }

    /// Takes a turn that is no stop.
    fn take_step<S: Space<Open = O>>(
        &mut self,
        alloc: Global,
        space: &mut S,
        wanted: Turned,
    ) -> bool
        requires part { TakesPart O.tells O.txn O.faults (S.view space.old) self.old }
        requires going { self.old.gave_up ≡ false }
        requires steps { is_stop wanted ≡ false }
        ensures turns { Turns O.tells O.txn O.faults (S.view space.old) (S.view space.new)
            self.old self.new wanted result }
        ensures keeps { KeepsSpace (S.view space.old) (S.view space.new) }
    {
        self.session.prepare(alloc, None);
        if !is_turn(self.session.next(), wanted) {
            return false;
        }
        self.step(alloc, space, wanted)
    }

    /// Takes a stop. Where a statement before its line can't be answered, the session stops there.
    fn take_stop<S: Space<Open = O>>(
        &mut self,
        alloc: Global,
        space: &mut S,
        line: u32,
        cause: Cause,
    ) -> bool
        requires sits { Sits O.tells O.txn O.faults (S.view space.old) self.old }
        requires going { self.old.gave_up ≡ false }
        ensures turns { Turns O.tells O.txn O.faults (S.view space.old) (S.view space.new)
            self.old self.new (turn.Stop line cause) result }
        ensures keeps { KeepsSpace (S.view space.old) (S.view space.new) }
    {
        if !self.session.can_halt(line) {
            return false;
        }
        self.session.prepare(alloc, Some(line));
        if let Next::Stop { .. } = self.session.next() {
            return self.step(alloc, space, Turned::Stop { line, cause });
        }
        self.session.halt(space, line, cause);
        true
    }

    /// Takes a turn; false where it can't be taken. One who gave up is passed over.
    pub fn take<S: Space<Open = O>>(&mut self, alloc: Global, space: &mut S, wanted: Turned) -> bool
        requires { Sits O.tells O.txn O.faults (S.view space.old) self.old }
        ensures turns { Turns O.tells O.txn O.faults (S.view space.old) (S.view space.new)
            self.old self.new wanted result }
        ensures keeps { KeepsSpace (S.view space.old) (S.view space.new) }
    {
        if self.gave_up {
            return true;
        }
        match wanted {
            Turned::Stop { line, cause } => self.take_stop(alloc, space, line, cause),
            _ => self.take_step(alloc, space, wanted),
        }
    }
}
