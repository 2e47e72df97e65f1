//! The transcript: what it says of the sessions, then the totals and the order.
//!
//! What the sessions say can be gathered before they end, and the rest be put behind it when all is done.
ghost use Rattle.std.specs.Prelude.{◌≡◌, ◌++◌, IfOk, OnOk};
ghost use Rattle.std.specs.List.{flat_map};
ghost use Rattle.xod_play.specs.Told.{IsGathered, gathered_text, hits_in, misses_in, names_in, told_text};

use crate::player::Player;
use crate::transcript::{push_order, push_total};
use std::alloc::Global;
use std::vec::Vec;
use xod_base::{Bytes, Memory, Text};
use xod_journal::{JournalEntry, Local};

/// The lines of all sessions, their names, and how many of their queries hit and missed.
#[derive(Drop)]
pub struct Gathered {
    pub lines: Bytes,
    pub names: Vec<Text>,
    pub hits: u128,
    pub misses: u128,
}

/// Puts a session's name and its lines at the end.
fn push_player<O: Local>(out: &mut Bytes, player: &Player<O>) -> Result<(), Memory>
    ensures { OnOk result (out.new ≡ out.old ++ told_text player.now) }
{
    out.extend(b"session ")?;
    out.extend(player.name.as_bytes())?;
    out.push(b'\n')?;
    out.extend(player.session.text())?;
    Ok(())
}

/// Puts all sessions at the end.
fn push_players<O: Local>(out: &mut Bytes, players: &[Player<O>]) -> Result<(), Memory>
    ensures { OnOk result (out.new ≡ out.old ++ flat_map told_text players.now) }
{
    for player in players {
        push_player(out, player)?;
    }
    Ok(())
}

/// The names of the sessions, in the order of the input.
fn names_of<O>(alloc: Global, players: &[Player<O>]) -> Result<Vec<Text>, Memory>
    ensures { IfOk result (λ names. names.items ≡ names_in players.now) }
{
    let mut names = Vec::new(alloc);
    for player in players {
        names.push(player.name.try_clone(alloc)?)?;
    }
    Ok(names)
}

/// How many queries of all sessions hit.
fn hits_of<O: Local>(players: &[Player<O>]) -> u128
    ensures { result ≡ hits_in players.now }
{
    let mut hits = 0;
    for player in players {
        let (count, _) = player.session.counts();
        hits += u128::from(count);
    }
    hits
}

/// How many queries of all sessions missed.
fn misses_of<O: Local>(players: &[Player<O>]) -> u128
    ensures { result ≡ misses_in players.now }
{
    let mut misses = 0;
    for player in players {
        let (_, count) = player.session.counts();
        misses += u128::from(count);
    }
    misses
}

/// What the sessions say, in the order of the input.
pub fn gather<O: Local>(alloc: Global, players: &[Player<O>]) -> Result<Gathered, Memory>
    ensures { IfOk result (IsGathered players.now) }
{
    let names = names_of(alloc, players)?;
    let mut lines = Bytes::new(alloc);
    push_players(&mut lines, players)?;
    let (hits, misses) = (hits_of(players), misses_of(players));
    Ok(Gathered {
        lines,
        names,
        hits,
        misses,
    })
}

impl Gathered {
    /// The whole transcript: the lines, the totals, and the journal as an order.
    pub fn finish(
        self,
        alloc: Global,
        commit: u64,
        files: u64,
        journal: &[JournalEntry],
    ) -> Result<Bytes, Memory>
        ensures { IfOk result (λ text. text ≡ gathered_text self commit files journal.now) }
    {
        let Gathered {
            lines,
            names,
            hits,
            misses,
        } = self;
        let mut out = lines;
        push_total(alloc, &mut out, commit, hits, misses, files)?;
        push_order(alloc, &mut out, &names, journal)?;
        Ok(out)
    }
}
