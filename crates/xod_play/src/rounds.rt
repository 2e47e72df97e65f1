//! An order, played on one thread.
//!
//! What stands behind some of its items is in `specs/Rounds.antt`.
ghost use Rattle.std.specs.Prelude.{◌≡◌, ◌+◌, ◌<◌, ◌≤◌, [], IfSome, Option, Some, None, IfOk, IsTrue, length, true};
ghost use Rattle.std.specs.List.{list_all};
ghost use Rattle.xod_journal.specs.Spaces.{KeepsSpace, SpaceView};
ghost use Rattle.xod_lang.specs.WellFormed.{is_well_formed_session};
ghost use Rattle.xod_lang.specs.declared.script.Item.TheVariants.{Turn};
ghost use Rattle.xod_play.specs.Orders.{items_of};
ghost use Rattle.xod_play.specs.Places.{place_named};
ghost use Rattle.xod_play.specs.Rounds.{AllSit, Replays, TakesAll, TurnsItem, are_closed, are_done as are_done_by, scripts_in, start_of};

use crate::finish::let_all_go;
use crate::player::Player;
use std::alloc::Global;
use std::vec::Vec;
use xod_base::{Memory, Text};
use xod_journal::{Local, Space};
use xod_lang::{Item, OrderItem, SessionList, Turned};

/// All players at the start of their scripts, over a space without entries. The first has the number 1.
pub fn seat<O: Local>(alloc: Global, scripts: SessionList) -> Result<Vec<Player<O>>, Memory>
    requires formed { IsTrue (list_all is_well_formed_session scripts) }
    requires few { length scripts ≤ 64 }
    ensures sit { IfOk result (λ players. (space : SpaceView)
        → space.journal ≡ [] → space.sessions ≡ length scripts
        → AllSit O.tells O.txn O.faults 1 space players.items) }
    ensures closed { IfOk result (λ players. are_closed players.items ≡ true) }
    ensures scripts { IfOk result (λ players. scripts_in players.items ≡ scripts) }
{
    let mut players = Vec::with_capacity(alloc, scripts.len())?;
    let mut actor = 0;
    for script in scripts.into_vec() {
        actor += 1;
        match Player::new(alloc, script, actor) {
            Ok(player) => players.push_reserved(player),
            Err(Memory) => {
                let_all_go(players);
                return Err(Memory);
            }
        }
    }
    Ok(players)
}

/// The place of the first player with a name.
fn place_of<O>(players: &[Player<O>], name: &Text) -> Option<usize>
    ensures place { result ≡ place_named players.now name.now }
    ensures within { IfSome result (λ at. at < length players.now) }
{
    for (at, player) in players.iter().enumerate() {
        if player.name.same(name) {
            return Some(at);
        }
    }
    None
}

/// Takes the turn of the session with a name; false where it can't be taken.
fn take_turn<O: Local, S: Space<Open = O>>(
    alloc: Global,
    players: &mut [Player<O>],
    space: &mut S,
    name: &Text,
    wanted: Turned,
) -> bool
    requires { AllSit O.tells O.txn O.faults 1 (S.view space.old) players.old }
    ensures turns { TurnsItem O.tells O.txn O.faults (S.view space.old) (S.view space.new)
        players.old players.new (Turn name.now wanted) result }
    ensures keeps { KeepsSpace (S.view space.old) (S.view space.new) }
{
    xod_journal::same_is_equal();
    xod_session::items_make_a_journal();
    xod_session::sessions_make_a_world();
    let Some(at) = place_of(players, name) else {
        return false;
    };
    players[at].take(alloc, space, wanted)
}

/// Takes an item; false where it can't be taken.
fn take_item<O: Local, S: Space<Open = O>>(
    alloc: Global,
    players: &mut [Player<O>],
    space: &mut S,
    item: &Item,
) -> bool
    requires { AllSit O.tells O.txn O.faults 1 (S.view space.old) players.old }
    ensures turns { TurnsItem O.tells O.txn O.faults (S.view space.old) (S.view space.new)
        players.old players.new item.now result }
    ensures keeps { KeepsSpace (S.view space.old) (S.view space.new) }
{
    match item {
        Item::Turn { session, step } => take_turn(alloc, players, space, session, *step),
    }
}

/// Takes the items of an order. Answers the place of the first that can't be taken.
fn take_all<O: Local, S: Space<Open = O>>(
    alloc: Global,
    players: &mut [Player<O>],
    space: &mut S,
    order: &[OrderItem],
) -> Option<usize>
    requires sit { AllSit O.tells O.txn O.faults 1 (S.view space.old) players.old }
    requires begun { (S.view space.old).journal ≡ [] }
    ensures takes { TakesAll O.tells O.txn O.faults (S.view space.new) players.new
        (start_of (S.view space.old) players.old) (items_of order.now) result }
    ensures within { IfSome result (λ at. at < length order.now) }
    ensures keeps { KeepsSpace (S.view space.old) (S.view space.new) }
{
    xod_session::items_make_a_journal();
    xod_session::sessions_make_a_world();
    for (at, item) in order.iter().enumerate() {
        if !take_item(alloc, players, space, &item.item) {
            return Some(at);
        }
    }
    None
}

/// Whether all have stopped, or are at the end of their scripts.
fn are_done<O: Local>(players: &[Player<O>]) -> bool
    ensures { result ≡ are_done_by players.now }
{
    players.iter().all(|player| player.is_done())
}

/// Plays an order to its end. Answers the number of the first item that can't be taken, or the one past the last where a
/// session is not over.
pub fn replay<O: Local, S: Space<Open = O>>(
    alloc: Global,
    players: &mut [Player<O>],
    space: &mut S,
    order: &[OrderItem],
) -> Option<u64>
    requires sit { AllSit O.tells O.txn O.faults 1 (S.view space.old) players.old }
    requires begun { (S.view space.old).journal ≡ [] }
    ensures replays { Replays O.tells O.txn O.faults (S.view space.new) players.new
        (start_of (S.view space.old) players.old) (items_of order.now) result }
    ensures keeps { KeepsSpace (S.view space.old) (S.view space.new) }
{
    xod_session::sessions_make_a_world();
    xod_session::items_make_a_journal();
    if let Some(at) = take_all(alloc, players, space, order) {
        return Some(at as u64 + 1);
    }
    if are_done(players) {
        return None;
    }
    Some(order.len() as u64 + 1)
}
