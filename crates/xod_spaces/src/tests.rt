//! Two sessions over a store that fails as planned, turn by turn.
ghost use Rattle.std.specs.Prelude.{◌≡◌, IfOk, IsTrue};
ghost use Rattle.xod_lang.specs.WellFormed.{is_well_formed_session};
ghost use Rattle.xod_session.specs.Calls.{IsFresh};
ghost use Rattle.xod_session.specs.declared.session.Progress.TheVariants.{Stepped};
ghost use Rattle.xod_spaces.specs.Pairs.{PlayBoth};

mod causes;
mod turns;

use crate::{FaultySpace, FaultyTxn, Planned};
use std::alloc::Global;
use std::test::Fail;
use xod_base::{Bytes, Cause, INPUT_LIMIT, Memory};
use xod_journal::{Local, Space};
use xod_lang::{SessionScript, read_script};
use xod_session::{Next, Progress, Session};

/// The scripts of two sessions.
fn scripts(alloc: Global, script: &[u8]) -> Result<(SessionScript, SessionScript), Fail>
    ensures first { IfOk result (λ both. IsTrue (is_well_formed_session both.0)) }
    ensures second { IfOk result (λ both. IsTrue (is_well_formed_session both.1)) }
{
    if script.len() > INPUT_LIMIT {
        return Err(Fail::from("a long input"));
    }
    let script = read_script(alloc, script)?;
    let mut sessions = script.sessions.into_vec();
    let Some(second) = sessions.pop() else {
        return Err(Fail::from("no second session"));
    };
    let Some(first) = sessions.pop() else {
        return Err(Fail::from("no first session"));
    };
    Ok((first, second))
}

/// Two sessions at the start of their scripts, over a store that fails as planned.
#[derive(Drop)]
struct Seats {
    space: FaultySpace,
    first: Session<FaultyTxn>,
    second: Session<FaultyTxn>,
}

/// Two sessions at the start of their scripts.
fn seated(
    alloc: Global,
    script: &[u8],
    shared: Option<Planned>,
    private: Option<Planned>,
) -> Result<Seats, Fail>
    ensures both { IfOk result (λ seats. PlayBoth ⟦<FaultyTxn as Local>⟧.tells
        ⟦<FaultyTxn as Local>⟧.txn ⟦<FaultyTxn as Local>⟧.faults
        (⟦<FaultySpace as Space>⟧.view seats.space) seats.first seats.second) }
    ensures fresh { IfOk result (λ seats. IsFresh seats.first) }
{
    let (first, second) = scripts(alloc, script)?;
    Ok(Seats {
        space: FaultySpace::new(alloc, 0, 2, shared, private)?,
        first: Session::new(alloc, first, 1)?,
        second: Session::new(alloc, second, 2)?,
    })
}

/// Takes a turn of a session beside another one. Answers what came next, and what the turn came to.
fn turn<O: Local, S: Space<Open = O>>(
    alloc: Global,
    space: &mut S,
    mine: &mut Session<O>,
    other: &Session<O>,
) -> (Next, Progress)
    requires { PlayBoth O.tells O.txn O.faults (S.view space.old) mine.old other.now }
    ensures both { PlayBoth O.tells O.txn O.faults (S.view space.new) mine.new other.now }
    ensures fresh { result.1 ≡ Stepped → IsFresh mine.new }
{
    mine.prepare(alloc, None);
    let next = mine.next();
    let progress = mine.step(alloc, space);
    (next, progress)
}

/// Takes a turn of the first session for the letter a, and else one of the second.
fn turn_of<O: Local, S: Space<Open = O>>(
    alloc: Global,
    letter: u8,
    space: &mut S,
    first: &mut Session<O>,
    second: &mut Session<O>,
) -> (Next, Progress)
    requires { PlayBoth O.tells O.txn O.faults (S.view space.old) first.old second.old }
    ensures { PlayBoth O.tells O.txn O.faults (S.view space.new) first.new second.new }
{
    if letter == b'a' {
        turn(alloc, space, first, second)
    } else {
        turn(alloc, space, second, first)
    }
}

/// Ends both sessions, and hands out their lines.
fn finished<O: Local, S: Space<Open = O>>(
    space: &mut S,
    first: Session<O>,
    second: Session<O>,
) -> (Bytes, Bytes)
    requires { PlayBoth O.tells O.txn O.faults (S.view space.old) first second }
{
    let first = first.finish(space);
    let second = second.finish(space);
    (first, second)
}

/// What two sessions came to.
#[derive(Drop)]
struct Run {
    /// What came next and what it came to, in a line for each turn.
    came: Bytes,
    /// What the first session had said before its end.
    said: Bytes,
    first: Bytes,
    second: Bytes,
}

/// Plays two sessions by the letters of their turns.
fn played(
    alloc: Global,
    script: &[u8],
    letters: &[u8],
    shared: Option<Planned>,
    private: Option<Planned>,
) -> Result<Run, Fail> {
    let Seats {
        mut space,
        mut first,
        mut second,
    } = seated(alloc, script, shared, private)?;
    let mut came = Bytes::new(alloc);
    for letter in letters {
        let (next, progress) = turn_of(alloc, *letter, &mut space, &mut first, &mut second);
        let line = format!(in alloc; "{next:?} {progress:?}\n")?;
        came.extend(line.as_bytes())?;
    }
    let mut said = Bytes::new(alloc);
    said.extend(first.text())?;
    let (first, second) = finished(&mut space, first, second);
    Ok(Run {
        came,
        said,
        first,
        second,
    })
}

/// These bytes one behind the other.
fn joined(alloc: Global, parts: &[&[u8]]) -> Result<Bytes, Memory> {
    let mut all = Bytes::new(alloc);
    for part in parts {
        all.extend(part)?;
    }
    Ok(all)
}
