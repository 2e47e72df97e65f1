//! What an item of the order says, from the words behind its first one.
//!
//! `line.rt` hands in what is left of a line. Nothing here knows which sessions there are. The rules stand in
//! `specs/Items.antt`, one definition for each function, in the same steps.
ghost use Rattle.std.specs.Prelude.{◌≡◌, Some};
ghost use Rattle.xod_lang.specs.Items.{cause_of, item_of, step_of, stop_of, turn_of, turned_of};
ghost use Rattle.xod_words.specs.Reads.{Reads};
ghost use Rattle.xod_words.specs.Words.{words_of};

use crate::script::{Item, Turned};
use std::alloc::Global;
use xod_base::Cause;
use xod_words::{Unread, is_word, next_word, no_word, read_count, read_session_name, two_words};

#[tactic(auto, unfolding(crate::specs::Items::cause_of))]
fn cause_of(word: &[u8]) -> Result<Cause, Unread>
    ensures { Reads result (cause_of word.now) }
{
    if is_word(word, b"device") {
        Ok(Cause::Device)
    } else if is_word(word, b"broken") {
        Ok(Cause::Broken)
    } else if is_word(word, b"damaged") {
        Ok(Cause::Damaged)
    } else if is_word(word, b"spent") {
        Ok(Cause::Spent)
    } else if is_word(word, b"memory") {
        Ok(Cause::Memory)
    } else {
        Err(Unread::Bad)
    }
}

#[tactic(auto, unfolding(crate::specs::Items::stop_of))]
fn stop_of(rest: &[u8]) -> Result<Turned, Unread>
    ensures { Reads result (stop_of (words_of rest.now)) }
{
    let (first, second) = two_words(rest)?;
    let line = read_count(first)?;
    let cause = cause_of(second)?;
    Ok(Turned::Stop { line, cause })
}

#[tactic(auto, unfolding(crate::specs::Items::step_of))]
fn step_of(word: &[u8]) -> Result<Turned, Unread>
    ensures { Reads result (step_of word.now) }
{
    if is_word(word, b"begin") {
        Ok(Turned::Begin)
    } else if is_word(word, b"flush") {
        Ok(Turned::Flush)
    } else if is_word(word, b"revert") {
        Ok(Turned::Revert)
    } else if is_word(word, b"end") {
        Ok(Turned::End)
    } else if is_word(word, b"sync") {
        Ok(Turned::Sync)
    } else {
        Err(Unread::Bad)
    }
}

/// What a turn takes: a shared step, or the stop.
#[tactic(auto, unfolding(crate::specs::Items::turned_of))]
fn turned_of(rest: &[u8]) -> Result<Turned, Unread>
    ensures { Reads result (turned_of (words_of rest.now)) }
{
    let (word, more) = next_word(rest)?;
    if is_word(word, b"stop") {
        stop_of(more)
    } else {
        no_word(more)?;
        step_of(word)
    }
}

#[tactic(auto, unfolding(crate::specs::Items::turn_of))]
fn turn_of(alloc: Global, rest: &[u8]) -> Result<Item, Unread>
    ensures { Reads result (turn_of (words_of rest.now)) }
{
    let (word, more) = next_word(rest)?;
    let session = read_session_name(alloc, word)?;
    let step = turned_of(more)?;
    Ok(Item::Turn { session, step })
}

/// What an item says that begins with this word.
#[tactic(auto, unfolding(crate::specs::Items::item_of))]
pub fn read_item(alloc: Global, word: &[u8], rest: &[u8]) -> Result<Item, Unread>
    ensures { Reads result (item_of word.now (words_of rest.now)) }
{
    if is_word(word, b"turn") {
        turn_of(alloc, rest)
    } else {
        Err(Unread::Bad)
    }
}
