//! What one line says.
//!
//! `read.rt` hands in a line without its end. Nothing here knows of the lines before it. The rules stand in
//! `specs/Scripts.antt`, one definition for each function, in the same steps.
ghost use Rattle.std.specs.Prelude.{◌≡◌, Some};
ghost use Rattle.xod_lang.specs.Scripts.{item_line, keyword_line, line_of, order_line, said_by, session_line, statement_line};
ghost use Rattle.xod_words.specs.Reads.{Reads};
ghost use Rattle.xod_words.specs.Words.{words_of};

use crate::items::read_item;
use crate::script::{Form, Item};
use crate::statements::read_form;
use std::alloc::Global;
use xod_base::{Text, is_utf8};
use xod_words::{Unread, begins_with, is_word, next_word, no_word, one_word, read_session_name};

/// What one line says by itself.
#[derive(Drop)]
pub enum Line {
    /// No words, or a comment.
    Nothing,
    Session(Text),
    Order,
    Statement(Form),
    Item(Item),
}

#[tactic(auto, unfolding(crate::specs::Scripts::session_line))]
fn session_line(alloc: Global, rest: &[u8]) -> Result<Line, Unread>
    ensures { Reads result (session_line (words_of rest.now)) }
{
    let word = one_word(rest)?;
    let name = read_session_name(alloc, word)?;
    Ok(Line::Session(name))
}

#[tactic(auto, unfolding(crate::specs::Scripts::order_line))]
fn order_line(rest: &[u8]) -> Result<Line, Unread>
    ensures { Reads result (order_line (words_of rest.now)) }
{
    no_word(rest)?;
    Ok(Line::Order)
}

#[tactic(auto, unfolding(crate::specs::Scripts::item_line))]
fn item_line(alloc: Global, word: &[u8], rest: &[u8]) -> Result<Line, Unread>
    ensures { Reads result (item_line word.now (words_of rest.now)) }
{
    let said = read_item(alloc, word, rest)?;
    Ok(Line::Item(said))
}

#[tactic(auto, unfolding(crate::specs::Scripts::statement_line))]
fn statement_line(alloc: Global, word: &[u8], rest: &[u8]) -> Result<Line, Unread>
    ensures { Reads result (statement_line word.now (words_of rest.now)) }
{
    let said = read_form(alloc, word, rest)?;
    Ok(Line::Statement(said))
}

/// A line that begins with a word and goes on.
#[tactic(auto, unfolding(crate::specs::Scripts::keyword_line))]
fn keyword_line(alloc: Global, word: &[u8], rest: &[u8]) -> Result<Line, Unread>
    ensures { Reads result (keyword_line word.now (words_of rest.now)) }
{
    if is_word(word, b"session") {
        session_line(alloc, rest)
    } else if is_word(word, b"order") {
        order_line(rest)
    } else if is_word(word, b"turn") {
        item_line(alloc, word, rest)
    } else {
        statement_line(alloc, word, rest)
    }
}

/// A line of words, which is a comment where the first begins with `#`.
#[tactic(auto, unfolding(crate::specs::Scripts::said_by))]
fn said_by(alloc: Global, line: &[u8]) -> Result<Line, Unread>
    ensures { Reads result (said_by (words_of line.now)) }
{
    match next_word(line) {
        Err(_) => Ok(Line::Nothing),
        Ok((word, _)) if begins_with(b'#', word) => Ok(Line::Nothing),
        Ok((word, rest)) => keyword_line(alloc, word, rest),
    }
}

/// A line without its end.
#[tactic(auto, unfolding(crate::specs::Scripts::line_of))]
pub fn read_line(alloc: Global, bytes: &[u8]) -> Result<Line, Unread>
    ensures { Reads result (line_of bytes.now) }
{
    if is_utf8(bytes) {
        said_by(alloc, bytes)
    } else {
        Err(Unread::Bad)
    }
}
