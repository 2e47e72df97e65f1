//! What was read of an input so far, and how a line goes on from there.
//!
//! It keeps the sessions, where the last one stands, and the order. `read.rt` hands in line after line. The rules stand
//! in `specs/Scripts.antt`, one definition for each function, in the same steps.
ghost use Rattle.std.specs.Prelude.{◌≡◌, ◌++◌, IfOk, OnOk, None, Some, option_and_then};
ghost use Rattle.std.specs.List.{list_any};
ghost use Rattle.std.specs.Option.{option_to_list};
ghost use Rattle.xod_lang.specs.Reads.{GoesOn, ReadsScript};
ghost use Rattle.xod_lang.specs.Scripts.{has_name, has_room_for, is_between_parts, line_of, nothing_read, script_read, sessions_of, with_item, with_line, with_order, with_session, with_statement};

use crate::line::{Line, read_line};
use crate::pool::Pool;
use crate::script::{
    Form, Item, OrderItem, OrderList, Script, ScriptError, SessionList, SessionScript, Statement,
    StatementList,
};
use crate::standing::Standing;
use std::alloc::Global;
use xod_base::{MOST_SESSIONS, Memory, Text};
use xod_words::Unread;

/// What was read so far.
#[derive(Drop)]
pub struct Reading {
    /// The sessions before the last.
    pub before: SessionList,
    pub last: Option<SessionScript>,
    /// Where the last session stands.
    pub standing: Standing,
    pub order_line: Option<u32>,
    pub order: OrderList,
}

/// Whether a session has this name.
fn is_taken(sessions: &[SessionScript], name: &Text) -> bool
    ensures { result ≡ list_any (has_name name.now) sessions.now }
{
    sessions.iter().any(|session| session.name.same(name))
}

impl Reading {
    /// Nothing was read yet.
    pub fn new(alloc: Global) -> Reading
        ensures { result ≡ nothing_read }
    {
        Reading {
            before: SessionList::new(alloc),
            last: None,
            standing: Standing::Outside,
            order_line: None,
            order: OrderList::new(alloc),
        }
    }

    /// Whether a session or the order may begin.
    fn is_between_parts(&self) -> bool
        ensures { result ≡ is_between_parts self.now }
    {
        self.standing.is_outside() && self.order_line.is_none()
    }

    /// Puts the last session behind the others, and answers whether another one has room.
    fn has_room_for(&mut self, name: &Text) -> Result<bool, Memory>
        ensures settled { OnOk result
            (self.new ≡ record self.old { before = sessions_of self.old; last = None }) }
        ensures room { IfOk result (λ room. room ≡ has_room_for name.now (sessions_of self.old)) }
    {
        if let Some(session) = self.last.take() {
            self.before.push(session)?;
        }
        Ok(self.before.len() < MOST_SESSIONS && !is_taken(self.before.as_slice(), name))
    }

    /// Begins a session.
    #[tactic(auto, unfolding(crate::specs::Scripts::with_session))]
    fn add_session(&mut self, alloc: Global, name: Text) -> Result<(), Unread>
        ensures { GoesOn result self.new (with_session self.old name) }
    {
        if !self.is_between_parts() || !self.has_room_for(&name)? {
            return Err(Unread::Bad);
        }
        let statements = StatementList::new(alloc);
        self.last = Some(SessionScript { name, statements });
        Ok(())
    }

    /// Puts a statement at the end of the last session.
    #[tactic(auto, unfolding(crate::specs::Scripts::with_statement))]
    fn add_statement(&mut self, line: u32, form: Form) -> Result<(), Unread>
        ensures { GoesOn result self.new (with_statement self.old line form) }
    {
        let Some(standing) = self.standing.after(&form) else {
            return Err(Unread::Bad);
        };
        let Some(mut session) = self.last.take() else {
            return Err(Unread::Bad);
        };
        if self.order_line.is_some() {
            return Err(Unread::Bad);
        }
        session.statements.push(Statement { line, form })?;
        self.last = Some(session);
        self.standing = standing;
        Ok(())
    }

    /// Begins the order.
    #[tactic(auto, unfolding(crate::specs::Scripts::with_order))]
    fn add_order(&mut self, line: u32) -> Result<(), Unread>
        ensures { GoesOn result self.new (with_order self.old line) }
    {
        if !self.is_between_parts() {
            return Err(Unread::Bad);
        }
        self.order_line = Some(line);
        Ok(())
    }

    /// Puts an item at the end of the order.
    #[tactic(auto, unfolding(crate::specs::Scripts::with_item))]
    fn add_item(&mut self, line: u32, item: Item) -> Result<(), Unread>
        ensures { GoesOn result self.new (with_item self.old line item) }
    {
        if self.order_line.is_none() {
            return Err(Unread::Bad);
        }
        self.order.push(OrderItem { line, item })?;
        Ok(())
    }

    /// Takes one line more.
    #[tactic(auto, unfolding(crate::specs::Scripts::with_line))]
    fn add_line(&mut self, alloc: Global, line: u32, said: Line) -> Result<(), Unread>
        ensures { GoesOn result self.new (with_line self.old line said) }
    {
        match said {
            Line::Nothing => Ok(()),
            Line::Session(name) => self.add_session(alloc, name),
            Line::Order => self.add_order(line),
            Line::Statement(form) => self.add_statement(line, form),
            Line::Item(item) => self.add_item(line, item),
        }
    }

    /// Takes one line more, from its bytes. Its names are shared with those that the pool has.
    pub fn add_bytes(
        &mut self,
        alloc: Global,
        pool: &mut Pool,
        line: u32,
        bytes: &[u8],
    ) -> Result<(), Unread>
        ensures { GoesOn result self.new
            (option_and_then (with_line self.old line) (line_of bytes.now)) }
    {
        let mut said = read_line(alloc, bytes)?;
        pool.share_line(alloc, &mut said);
        self.add_line(alloc, line, said)
    }

    /// The script that was read, where `past` is the line past the last one.
    pub fn finish(self, past: u32) -> Result<Script, ScriptError>
        ensures { ReadsScript result (script_read past self) }
    {
        let Reading {
            before,
            last,
            standing,
            order_line,
            order,
        } = self;
        if !standing.is_outside() {
            return Err(ScriptError::Line { line: past });
        }
        let sessions = with_last(before, last)?;
        Ok(Script {
            sessions,
            order_line,
            order,
        })
    }
}

/// The sessions with the last one at their end.
fn with_last(mut before: SessionList, last: Option<SessionScript>) -> Result<SessionList, Memory>
    ensures { IfOk result (λ sessions. sessions ≡ before ++ option_to_list last) }
{
    if let Some(session) = last {
        before.push(session)?;
    }
    Ok(before)
}
