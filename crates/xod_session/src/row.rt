//! Private statements in a row: those before the next shared step, or those before a line.
ghost use Rattle.std.specs.Prelude.{◌≡◌, ◌&&◌, IsTrue, nat_lt};
ghost use Rattle.xod_session.specs.Answers.{AnswersRow, is_below};
ghost use Rattle.xod_session.specs.Scripts.{are_named};
ghost use Rattle.xod_session.specs.Turns.{is_private as is_private_form};

use crate::course::is_private;
use crate::dialogue::Dialogue;
use crate::private::answer;
use std::alloc::Global;
use xod_base::Cause;
use xod_journal::Local;
use xod_lang::Statement;

/// The line of a statement that was not answered, and why.
#[derive(Clone, Copy, Debug, PartialEq, Eq)]
pub struct Halt {
    pub line: u32,
    pub cause: Cause,
}

/// How many statements were answered, and what stopped the row before its end.
#[derive(Clone, Copy)]
pub struct Row {
    pub count: usize,
    pub met: Option<Halt>,
}

/// Whether a statement is a private one before a line, where one is given.
fn goes_on(until: Option<u32>, statement: &Statement) -> bool
    ensures { result ≡ (is_private_form statement.now.form && is_below until statement.now.line) }
{
    let below = match until {
        None => true,
        Some(line) => statement.line < line,
    };
    is_private(&statement.form) && below
}

/// Answers the private statements at the front, those before a line where one is given.
pub fn answer_row<O: Local>(
    said: &mut Dialogue,
    txn: &mut O,
    alloc: Global,
    statements: &[Statement],
    until: Option<u32>,
) -> Row
    requires { IsTrue (are_named statements.now) }
    ensures { AnswersRow O.tells O.txn O.faults statements.now until
        said.old said.new txn.old txn.new result }
{
    for (count, statement) in statements.iter().enumerate() {
        if !goes_on(until, statement) {
            return Row { count, met: None };
        }
        if let Err(cause) = answer(said, txn, alloc, statement) {
            let line = statement.line;
            let met = Some(Halt { line, cause });
            return Row { count, met };
        }
    }
    Row {
        count: statements.len(),
        met: None,
    }
}
