//! The end of all sessions.
//!
//! What it leaves of a space stands in `specs/Finished.antt`.
ghost use Rattle.std.specs.Prelude.{◌≡◌, true};
ghost use Rattle.std.specs.List.{list_all};
ghost use Rattle.xod_journal.specs.Spaces.{KeepsSpace};
ghost use Rattle.xod_session.specs.Laws.{is_players};
ghost use Rattle.xod_play.specs.Finished.{HasFinished};
ghost use Rattle.xod_play.specs.Rounds.{AllTakePart, are_closed, are_done, start_of};

use crate::player::Player;
use std::vec::Vec;
use xod_journal::{Local, Space};

/// Ends all sessions, the last first. A transaction that is still open is given back with a stop; none is open then. It
/// takes no memory.
pub fn finish_all<O: Local, S: Space<Open = O>>(players: Vec<Player<O>>, space: &mut S)
    requires part { AllTakePart O.tells O.txn O.faults 1 (S.view space.old) players.items }
    requires own { list_all (is_players (start_of (S.view space.old) players.items))
        (S.view space.old).journal ≡ true }
    ensures finished { HasFinished (S.view space.old) (S.view space.new) (are_done players.items) }
    ensures keeps { KeepsSpace (S.view space.old) (S.view space.new) }
{
    let mut players = players;
    while let Some(player) = players.pop() {
        let Player {
            name: _,
            session,
            gave_up: _,
        } = player;
        let _text = session.finish(space);
    }
    players.destroy_empty();
}

/// Lets all sessions go, none of which has a transaction open.
pub fn let_all_go<O: Local>(players: Vec<Player<O>>)
    requires { are_closed players.items ≡ true }
{
    let mut players = players;
    while let Some(player) = players.pop() {
        let Player {
            name: _,
            session,
            gave_up: _,
        } = player;
        session.let_go();
    }
    players.destroy_empty();
}
