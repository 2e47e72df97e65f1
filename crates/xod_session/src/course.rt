//! Where a session is in its script.
//!
//! It is handed the answers of shared steps and says which step comes next; it knows no rows and no store. The rules
//! stand in `specs/Turns.antt`, and what a course keeps in `specs/Courses.antt`.
ghost use Rattle.std.specs.Prelude.{◌≡◌, ◌≤◌, ℕ, Bool, Option, Some, None, false, true, drop, length, option_map, IfSome, IsTrue};
ghost use Rattle.xod_session.specs.declared.course.Due.TheVariants.{Fresh, Ending, Reverting};
ghost use Rattle.xod_base.specs.declared.answer.Reply.{Reply as ReplyValue};
ghost use Rattle.xod_session.specs.Courses.{IsCourse, IsReady, IsWithin, course_halted, course_of, course_placed, due_by_left, front_asked, is_open_by as open_by, place_behind, since_place, skipped, spot_place};
ghost use Rattle.xod_session.specs.Scripts.{are_named, do_lines_rise, do_stand};
ghost use Rattle.xod_session.specs.Sessions.{can_stop as can_stop_at, is_front as is_front_line, is_line, private_count};
ghost use Rattle.xod_session.specs.Turns.{asks as asks_for, asks_then as asks_for_then, is_private as is_private_form, just_of};

use std::marker::Model;
use xod_base::{FlushAnswer, Mode, Reply};
use xod_lang::{Form, Statement, StatementList};

/// A step on the store.
#[derive(Clone, Copy, Debug, PartialEq, Eq)]
pub enum SharedStep {
    Begin { mode: Mode },
    Flush,
    Revert,
    End,
    Sync,
}

/// What is still to come of a statement that asks for more than one step.
#[derive(Clone, Copy, Debug, PartialEq, Eq)]
pub enum Due {
    /// Its first step.
    Fresh,
    /// An end.
    Ending,
    /// A revert, and one try more.
    Reverting,
}

/// A block that is being tried: the tries that are left after this one, and the place behind its `do`.
#[derive(Clone, Copy, Debug, PartialEq, Eq)]
pub struct Tried {
    pub left: u32,
    pub body: usize,
}

/// A place in a script: that of the next statement, what is due of it, the block that it is in, and the line of a flush
/// that has just committed.
#[derive(Clone, Copy)]
pub struct Spot {
    at: usize,
    due: Due,
    block: Option<Tried>,
    just: Option<u32>,
}

/// A script, and a place in it.
#[derive(Drop)]
pub struct Course {
    statements: StatementList,
    /// Where the statements behind the last shared step begin.
    since: usize,
    spot: Spot,
    is_open: bool,
    stopped: bool,
}

impl Model for Course {
    ghost use Rattle.std.specs.Prelude.{◌≤◌, drop, length};
    ghost use Rattle.xod_session.specs.Courses.{CourseView, IsCourse, IsWithin, course_code, spot_place};

    ghost Value = { CourseView };

    ghost coded = { course_code };

    ghost view = { λ c. record {
      script = c.statements;
      since = drop c.since c.statements;
      place = spot_place c.statements c.stopped c.spot;
      is_open = c.is_open;
    } };

    ghost invariant = { λ c. (c.since ≤ length c.statements) × IsWithin c.statements c.spot
        × IsCourse (record {
          script = c.statements;
          since = drop c.since c.statements;
          place = spot_place c.statements c.stopped c.spot;
          is_open = c.is_open;
        }) };
}

/// The shared step that a statement asks for first, and `None` where it is private.
fn asks(form: &Form) -> Option<SharedStep>
    ensures { result ≡ asks_for form.now }
{
    match form {
        Form::Begin { mode } => Some(SharedStep::Begin { mode: *mode }),
        Form::Flush => Some(SharedStep::Flush),
        Form::Revert => Some(SharedStep::Revert),
        Form::End => Some(SharedStep::End),
        Form::Commit => Some(SharedStep::Flush),
        Form::Sync => Some(SharedStep::Sync),
        Form::Do { .. } => Some(SharedStep::Begin {
            mode: Mode::Ordinary,
        }),
        Form::Done => Some(SharedStep::Flush),
        _ => None,
    }
}

/// Whether a statement is private.
pub fn is_private(form: &Form) -> bool
    ensures { result ≡ is_private_form form.now }
{
    asks(form).is_none()
}

/// The shared step of a statement of which something is due.
fn asks_then(due: Due, form: &Form) -> Option<SharedStep>
    ensures { result ≡ asks_for_then due form.now }
{
    match due {
        Due::Fresh => asks(form),
        Due::Ending => Some(SharedStep::End),
        Due::Reverting => Some(SharedStep::Revert),
    }
}

/// The line of a flush that committed.
fn just_of(line: u32, reply: &Reply) -> Option<u32>
    ensures { result ≡ just_of line reply.now }
{
    match reply {
        Reply::Flushed(FlushAnswer::Committed { .. }) => Some(line),
        _ => None,
    }
}

/// What is due behind the flush of a block.
fn due_after(block: Option<Tried>, reply: &Reply) -> Due
    ensures { result ≡ due_by_left (option_map (λ b. b.left) block) reply.now }
{
    match (block, reply) {
        (Some(tried), Reply::Flushed(FlushAnswer::Conflict { .. })) => {
            if tried.left > 0 {
                Due::Reverting
            } else {
                Due::Ending
            }
        }
        _ => Due::Ending,
    }
}

/// The place behind the first step that a statement asks for.
fn fresh_spot(statements: &[Statement], spot: Spot, reply: &Reply) -> Spot
    requires within { IsWithin statements.now spot }
    requires fresh { spot.due ≡ Fresh }
    ensures place { (stopped : Bool) → spot_place statements.now stopped result
        ≡ place_behind (spot_place statements.now stopped spot) (drop spot.at statements.now) reply.now }
    ensures within { IsWithin statements.now result }
{
    let Some(statement) = statements[spot.at..].first() else {
        return spot;
    };
    match &statement.form {
        Form::Do { tries } => Spot {
            at: spot.at + 1,
            due: spot.due,
            block: Some(Tried {
                left: tries.saturating_sub(1),
                body: spot.at + 1,
            }),
            just: None,
        },
        Form::Commit => Spot {
            at: spot.at,
            due: Due::Ending,
            block: spot.block,
            just: just_of(statement.line, reply),
        },
        Form::Done => Spot {
            at: spot.at,
            due: due_after(spot.block, reply),
            block: spot.block,
            just: just_of(statement.line, reply),
        },
        _ => Spot {
            at: spot.at + 1,
            due: spot.due,
            block: spot.block,
            just: just_of(statement.line, reply),
        },
    }
}

/// The place behind the end of a `commit` or of a block.
fn ended_spot(statements: &[Statement], spot: Spot) -> Spot
    requires within { IsWithin statements.now spot }
    requires ending { spot.due ≡ Ending }
    ensures place { (stopped : Bool) (reply : ReplyValue) → spot_place statements.now stopped result
        ≡ place_behind (spot_place statements.now stopped spot) (drop spot.at statements.now) reply }
    ensures within { IsWithin statements.now result }
{
    let Some(_) = statements[spot.at..].first() else {
        return spot;
    };
    Spot {
        at: spot.at + 1,
        due: Due::Fresh,
        block: None,
        just: None,
    }
}

/// The place behind the revert of a block: its front.
fn back_spot(statements: &[Statement], spot: Spot) -> Spot
    requires within { IsWithin statements.now spot }
    requires reverting { spot.due ≡ Reverting }
    ensures place { (stopped : Bool) (reply : ReplyValue) → spot_place statements.now stopped result
        ≡ place_behind (spot_place statements.now stopped spot) (drop spot.at statements.now) reply }
    ensures within { IsWithin statements.now result }
{
    let Some(_) = statements[spot.at..].first() else {
        return spot;
    };
    match spot.block {
        None => Spot {
            at: spot.at,
            due: Due::Fresh,
            block: None,
            just: None,
        },
        Some(tried) => Spot {
            at: tried.body,
            due: Due::Fresh,
            block: Some(Tried {
                left: tried.left.saturating_sub(1),
                body: tried.body,
            }),
            just: None,
        },
    }
}

/// The place behind the next shared step.
fn spot_behind(statements: &[Statement], spot: Spot, reply: &Reply) -> Spot
    requires { IsWithin statements.now spot }
    ensures place { (stopped : Bool) → spot_place statements.now stopped result
        ≡ place_behind (spot_place statements.now stopped spot) (drop spot.at statements.now) reply.now }
    ensures within { IsWithin statements.now result }
{
    match spot.due {
        Due::Fresh => fresh_spot(statements, spot, reply),
        Due::Ending => ended_spot(statements, spot),
        Due::Reverting => back_spot(statements, spot),
    }
}

/// Whether a transaction is open behind a step.
fn is_open_by(asked: Option<SharedStep>, is_open: bool) -> bool
    ensures { result ≡ open_by asked is_open }
{
    match asked {
        Some(SharedStep::Begin { .. }) => true,
        Some(SharedStep::End) => false,
        _ => is_open,
    }
}

/// Whether a line is that of a statement up to the next shared step.
fn is_front(statements: &[Statement], line: u32) -> bool
    ensures { result ≡ is_front_line line statements.now }
{
    for statement in statements {
        if statement.line == line {
            return true;
        }
        if !is_private(&statement.form) {
            return false;
        }
    }
    false
}

/// How many private statements stand at the front.
fn private_front(statements: &[Statement]) -> usize
    ensures count { result ≡ private_count statements.now }
    ensures within { result ≤ length statements.now }
{
    for (count, statement) in statements.iter().enumerate() {
        if !is_private(&statement.form) {
            return count;
        }
    }
    statements.len()
}

impl Course {
    /// The start of a script.
    pub fn new(statements: StatementList) -> Course
        requires named { IsTrue (are_named statements) }
        requires rising { IsTrue (do_lines_rise statements) }
        requires stand { IsTrue (do_stand false false statements) }
        ensures start { result ≡ course_of statements }
        ensures course { IsCourse result }
    {
        Course {
            statements,
            since: 0,
            spot: Spot {
                at: 0,
                due: Due::Fresh,
                block: None,
                just: None,
            },
            is_open: false,
            stopped: false,
        }
    }

    /// Whether the session has stopped.
    pub fn is_stopped(&self) -> bool
        ensures stopped { result ≡ self.now.place.stopped }
        ensures course { IsCourse self.now }
    {
        self.stopped
    }

    /// The statements still to come.
    pub fn rest(&self) -> &[Statement]
        ensures rest { result.now ≡ self.now.place.rest }
        ensures named { IsTrue (are_named result.now) }
    {
        let (_, rest) = self.statements.as_slice().split_at(self.spot.at);
        rest
    }

    /// The statements behind the last shared step.
    fn since(&self) -> &[Statement]
        ensures { result.now ≡ self.now.since }
    {
        let (_, since) = self.statements.as_slice().split_at(self.since);
        since
    }

    /// Goes on behind private statements that were answered.
    pub fn skip(&mut self, count: usize)
        requires going { self.old.place.stopped ≡ false }
        requires private { count ≤ private_count self.old.place.rest }
        ensures { self.new ≡ skipped self.old count }
    {
        let left = self.rest().len() - count;
        self.spot.at = self.statements.len() - left;
    }

    /// The next shared step and the line of its statement, behind the private statements that come before it.
    pub fn next(&self) -> Option<(u32, SharedStep)>
        ensures { result ≡ front_asked self.now.place.due
            (drop (private_count self.now.place.rest) self.now.place.rest) }
    {
        let rest = self.rest();
        let (_, shared) = rest.split_at(private_front(rest));
        let statement = shared.first()?;
        let asked = asks_then(self.spot.due, &statement.form)?;
        Some((statement.line, asked))
    }

    /// Whether a stop with this line can be taken: at a statement from the one behind the last shared step up to the
    /// next shared step, or at a flush that has just committed.
    pub fn can_stop(&self, line: u32) -> bool
        ensures { result ≡ can_stop_at (since_place self.now) line }
    {
        is_front(self.since(), line) || self.spot.just == Some(line)
    }

    /// Goes on behind the answer of the next shared step.
    pub fn place(&mut self, reply: &Reply)
        requires going { self.old.place.stopped ≡ false }
        requires ready { IsReady self.old }
        ensures { self.new ≡ course_placed self.old self.old.place.rest reply.now }
    {
        let statements = self.statements.as_slice();
        let (_, rest) = statements.split_at(self.spot.at);
        let Some(statement) = rest.first() else {
            return;
        };
        self.is_open = is_open_by(asks_then(self.spot.due, &statement.form), self.is_open);
        self.spot = spot_behind(statements, self.spot, reply);
        self.since = self.spot.at;
    }

    /// Stops here.
    pub fn halt(&mut self)
        ensures { self.new ≡ course_halted self.old }
    {
        self.stopped = true;
        self.since = self.spot.at;
        self.spot.just = None;
        self.is_open = false;
    }
}
