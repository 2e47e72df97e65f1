//! What a session has said: its variables, its printed lines, and its counts of queries.
//!
//! Lines are printed as they come, and the answers themselves are not kept. There is always room for the line of a
//! stop, so that no step that was taken stays unprinted. What is kept stands in `specs/Dialogues.antt`.
ghost use Rattle.std.specs.Prelude.{◌+◌, ◌≤◌, vec_len};

use crate::variables::Variables;
use std::alloc::Global;
use std::collections::VecDeque;
use xod_base::{ActAnswer, Bytes, Cause, EntityId, Memory, Query, Reply, StmtError, Text};
use xod_print::{STEP_ROOM, STOP_ROOM, answer_line, print_step, print_stop};

/// What a session has said.
#[derive(Drop)]
pub struct Dialogue {
    pub(crate) variables: Variables,
    pub(crate) text: Vec<u8>,
    pub(crate) hits: u64,
    pub(crate) misses: u64,
    /// The queries that missed and were not handed out yet.
    pub(crate) pending: VecDeque<Query>,
    ghost counted: { hits + misses ≤ vec_len text },
}

impl Dialogue {
    ghost use Rattle.std.specs.Prelude.{◌≡◌, ◌++◌, ◌∷◌, [], IfOk, IsTrue, OnErr, OnOk, MatchOption, if◌then◌else◌, length};
    ghost use Rattle.std.specs.FinMap.{empty};
    ghost use Rattle.xod_print.specs.Rooms.{HasRoomFor};
    ghost use Rattle.xod_print.specs.Texts.{answer_line as line_of, is_step_reply};
    ghost use Rattle.xod_base.specs.declared.answer.Reply.TheVariants as reply;
    ghost use Rattle.xod_session.specs.Private.{with_made};
    ghost use Rattle.xod_session.specs.Dialogues.{HasStepRoom, HasStopRoom, line_printed, printed_of};

    /// Nothing said yet.
    pub fn new(alloc: Global) -> Result<Dialogue, Memory>
        ensures printed { IfOk result (λ dialogue. printed_of dialogue
            ≡ record { variables = empty; text = []; hits = 0; misses = 0; pending = [] }) }
        ensures room { IfOk result HasStopRoom }
    {
        Ok(Dialogue {
            variables: Variables::new(alloc),
            text: Vec::with_capacity(alloc, STOP_ROOM)?,
            hits: 0,
            misses: 0,
            pending: VecDeque::new(alloc),
        })
    }

    /// Makes room for the line of a shared step beside that of a stop.
    pub fn make_room(&mut self) -> Result<(), Memory>
        ensures printed { printed_of self.new ≡ printed_of self.old }
        ensures ok { OnOk result (HasStepRoom self.new) }
        ensures kept { HasStopRoom self.old → HasStopRoom self.new }
    {
        self.text.reserve(STEP_ROOM + STOP_ROOM)?;
        Ok(())
    }

    /// Puts the line of a shared step.
    pub fn put_step(&mut self, line: u32, reply: &Reply)
        requires step { IsTrue (is_step_reply reply.now) }
        requires room { HasStepRoom self.old }
        ensures printed { printed_of self.new ≡ line_printed (printed_of self.old) line reply.now }
        ensures room { HasStopRoom self.new }
    {
        print_step(&mut self.text, line, reply);
    }

    /// Puts the line of a stop.
    pub fn put_stop(&mut self, line: u32, cause: Cause)
        requires room { HasStopRoom self.old }
        ensures printed { printed_of self.new ≡ line_printed (printed_of self.old) line (reply.Stop cause) }
    {
        print_stop(&mut self.text, line, cause);
    }

    /// The line of a private statement, with room for it.
    fn line(&mut self, alloc: Global, line: u32, reply: &Reply) -> Result<Bytes, Memory>
        ensures line { IfOk result (λ text. text ≡ line_of line reply.now) }
        ensures room { IfOk result (λ text. HasRoomFor (length text + STOP_ROOM) self.new.text) }
        ensures printed { printed_of self.new ≡ printed_of self.old }
        ensures kept { HasStopRoom self.old → HasStopRoom self.new }
    {
        let text = answer_line(alloc, line, reply)?;
        self.text.reserve(text.len() + STOP_ROOM)?;
        Ok(text)
    }

    /// Puts a line that has room.
    fn put(&mut self, text: &Bytes)
        requires room { HasRoomFor (length text.now + STOP_ROOM) self.old.text }
        ensures printed { printed_of self.new
            ≡ record (printed_of self.old) { text = self.old.text.items ++ text.now } }
        ensures longer { vec_len self.new.text ≡ vec_len self.old.text + length text.now }
        ensures room { HasStopRoom self.new }
    {
        let Ok(()) = self.text.extend_from_slice(text.as_slice()) else {
            unreachable!()
        };
    }

    /// Puts the line of a private statement.
    pub fn reply(&mut self, alloc: Global, line: u32, reply: &Reply) -> Result<(), Memory>
        ensures ok { OnOk result (printed_of self.new ≡ line_printed (printed_of self.old) line reply.now) }
        ensures err { OnErr result (printed_of self.new ≡ printed_of self.old) }
        ensures room { HasStopRoom self.old → HasStopRoom self.new }
    {
        let text = self.line(alloc, line, reply)?;
        self.put(&text);
        Ok(())
    }

    /// Puts the line of a `new`, and sets its variable where it made an entity.
    pub fn reply_made(
        &mut self,
        alloc: Global,
        line: u32,
        var: &Text,
        reply: &Reply,
        outcome: &Result<ActAnswer, StmtError>,
    ) -> Result<(), Memory>
        ensures ok { OnOk result (printed_of self.new
            ≡ record (line_printed (printed_of self.old) line reply.now)
            { variables = with_made self.old.variables var.now outcome.now }) }
        ensures err { OnErr result (printed_of self.new ≡ printed_of self.old) }
        ensures room { HasStopRoom self.old → HasStopRoom self.new }
    {
        let text = self.line(alloc, line, reply)?;
        if let Ok(ActAnswer::Made(id)) = outcome {
            self.variables.set(alloc, var, *id)?;
        }
        self.put(&text);
        Ok(())
    }

    /// Puts the line of a query that the cache answered.
    pub fn reply_hit(&mut self, alloc: Global, line: u32, reply: &Reply) -> Result<(), Memory>
        ensures ok { OnOk result (printed_of self.new
            ≡ record (line_printed (printed_of self.old) line reply.now) { hits = self.old.hits + 1 }) }
        ensures err { OnErr result (printed_of self.new ≡ printed_of self.old) }
        ensures room { HasStopRoom self.old → HasStopRoom self.new }
    {
        let text = self.line(alloc, line, reply)?;
        self.put(&text);
        self.hits += 1;
        Ok(())
    }

    /// Puts the line of a query that the cache did not answer, and keeps it to be handed out.
    pub fn reply_missed(
        &mut self,
        alloc: Global,
        line: u32,
        reply: &Reply,
        query: Query,
    ) -> Result<(), Memory>
        ensures ok { OnOk result (printed_of self.new
            ≡ record (line_printed (printed_of self.old) line reply.now)
            { misses = self.old.misses + 1; pending = self.old.pending.items ++ query ∷ [] }) }
        ensures err { OnErr result (printed_of self.new ≡ printed_of self.old) }
        ensures room { HasStopRoom self.old → HasStopRoom self.new }
    {
        let text = self.line(alloc, line, reply)?;
        self.pending.push_back(query)?;
        self.put(&text);
        self.misses += 1;
        Ok(())
    }

    /// The next query that missed and was not handed out yet.
    pub fn next_missed(&mut self) -> Option<Query>
        ensures queries { MatchOption result ((self.old.pending.items ≡ []) × (self.new.pending.items ≡ []))
            (λ query. self.old.pending.items ≡ query ∷ self.new.pending.items) }
        ensures others { printed_of self.new
            ≡ record (printed_of self.old) { pending = self.new.pending.items } }
        ensures room { HasStopRoom self.old → HasStopRoom self.new }
    {
        self.pending.pop_front()
    }

    /// The printed lines.
    pub fn into_text(self) -> Bytes
        ensures { result ≡ self.text.items }
    {
        let Dialogue {
            variables: _,
            text,
            hits: _,
            misses: _,
            pending: _,
        } = self;
        Bytes::from_vec(text)
    }
}
