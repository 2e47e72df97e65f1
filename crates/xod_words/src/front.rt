//! The words of a query before its first part.
//!
//! `query.rt` hands in what is left of a line, one function for each form of a query. The rules stand in
//! `specs/Fronts.antt`, one definition for each function, in the same steps.
ghost use Rattle.std.specs.Prelude.{◌≡◌, Some};
ghost use Rattle.xod_words.specs.Fronts.{all_front, direction_of, find_front, from_front, front_of, keyword_front, leaf, leaf_with, linked_front, names_at, placed, prefix_front, range_front, skip_front, sort_front, take_front, targets_front, with_front, withlink_front};
ghost use Rattle.xod_words.specs.Names.{name_of};
ghost use Rattle.xod_words.specs.Numbers.{count_of};
ghost use Rattle.xod_words.specs.Reads.{Reads, ReadsOn};
ghost use Rattle.xod_words.specs.Values.{ent_of, text_of, value_of};
ghost use Rattle.xod_words.specs.Words.{first_of, words_of};

use crate::draft::Ent;
use crate::names::read_name;
use crate::numbers::read_count;
use crate::part::{Above, EntList, Front, Join, Part};
use crate::values::{read_ent, read_text, read_value};
use crate::words::{Unread, is_word, next_word};
use std::alloc::Global;
use xod_base::{Direction, EntityId, Query, Text, Value};

/// What was read at the front of a line, and what is left of the line.
pub type ReadOn<'a, T> = Result<(T, &'a [u8]), Unread>;

/// A name, and what follows it.
fn name_at(alloc: Global, line: &[u8]) -> ReadOn<'_, Text>
    ensures { ReadsOn result (first_of name_of (words_of line.now)) }
{
    let (word, rest) = next_word(line)?;
    let value = read_name(alloc, word)?;
    Ok((value, rest))
}

/// Two names, and what follows them.
#[tactic(auto, unfolding(crate::specs::Fronts::names_at))]
fn names_at(alloc: Global, line: &[u8]) -> ReadOn<'_, (Text, Text)>
    ensures { ReadsOn result (names_at (words_of line.now)) }
{
    let (first, rest) = name_at(alloc, line)?;
    let (second, rest) = name_at(alloc, rest)?;
    Ok(((first, second), rest))
}

/// A value, and what follows it.
fn value_at(alloc: Global, line: &[u8]) -> ReadOn<'_, Value>
    ensures { ReadsOn result (first_of value_of (words_of line.now)) }
{
    let (word, rest) = next_word(line)?;
    let value = read_value(alloc, word)?;
    Ok((value, rest))
}

/// A text, and what follows it.
fn text_at(alloc: Global, line: &[u8]) -> ReadOn<'_, Text>
    ensures { ReadsOn result (first_of text_of (words_of line.now)) }
{
    let (word, rest) = next_word(line)?;
    let value = read_text(alloc, word)?;
    Ok((value, rest))
}

/// An entity, and what follows it.
fn ent_at(alloc: Global, line: &[u8]) -> ReadOn<'_, Ent>
    ensures { ReadsOn result (first_of ent_of (words_of line.now)) }
{
    let (word, rest) = next_word(line)?;
    let value = read_ent(alloc, word)?;
    Ok((value, rest))
}

/// A number, and what follows it.
fn count_at(line: &[u8]) -> ReadOn<'_, u32>
    ensures { ReadsOn result (first_of count_of (words_of line.now)) }
{
    let (word, rest) = next_word(line)?;
    let value = read_count(word)?;
    Ok((value, rest))
}

#[tactic(auto, unfolding(crate::specs::Fronts::direction_of))]
fn read_direction(word: &[u8]) -> Result<Direction, Unread>
    ensures { Reads result (direction_of word.now) }
{
    if is_word(word, b"up") {
        Ok(Direction::Up)
    } else if is_word(word, b"down") {
        Ok(Direction::Down)
    } else {
        Err(Unread::Bad)
    }
}

/// A direction, and what follows it.
fn direction_at(line: &[u8]) -> ReadOn<'_, Direction>
    ensures { ReadsOn result (first_of direction_of (words_of line.now)) }
{
    let (word, rest) = next_word(line)?;
    let value = read_direction(word)?;
    Ok((value, rest))
}

/// A query without parts that names no entity.
fn leaf(alloc: Global, query: Query) -> Front
    ensures { result ≡ leaf query }
{
    Front::Leaf(Part {
        query,
        ents: EntList::new(alloc),
        leaves: 1,
    })
}

/// A query without parts that names an entity.
fn leaf_with(alloc: Global, query: Query, ent: Ent) -> Result<Front, Unread>
    ensures { Reads result (Some (leaf_with query ent)) }
{
    let mut ents = EntList::new(alloc);
    ents.push(ent)?;
    Ok(Front::Leaf(Part {
        query,
        ents,
        leaves: 1,
    }))
}

/// The id that stands in a query for an entity word.
fn placed(ent: &Ent) -> EntityId
    ensures { result ≡ placed ent.now }
{
    match ent {
        Ent::Id(id) => *id,
        Ent::Var(_) => EntityId { kind: 0, local: 0 },
    }
}

#[tactic(auto, unfolding(crate::specs::Fronts::all_front))]
fn all_front(alloc: Global, line: &[u8]) -> ReadOn<'_, Front>
    ensures { ReadsOn result (all_front (words_of line.now)) }
{
    let (kind, rest) = name_at(alloc, line)?;
    Ok((leaf(alloc, Query::All { kind }), rest))
}

#[tactic(auto, unfolding(crate::specs::Fronts::find_front))]
fn find_front(alloc: Global, line: &[u8]) -> ReadOn<'_, Front>
    ensures { ReadsOn result (find_front (words_of line.now)) }
{
    let ((kind, prop), rest) = names_at(alloc, line)?;
    let (value, rest) = value_at(alloc, rest)?;
    Ok((leaf(alloc, Query::Find { kind, prop, value }), rest))
}

#[tactic(auto, unfolding(crate::specs::Fronts::range_front))]
fn range_front(alloc: Global, line: &[u8]) -> ReadOn<'_, Front>
    ensures { ReadsOn result (range_front (words_of line.now)) }
{
    let ((kind, prop), rest) = names_at(alloc, line)?;
    let (low, rest) = value_at(alloc, rest)?;
    let (high, rest) = value_at(alloc, rest)?;
    let query = Query::Range {
        kind,
        prop,
        low,
        high,
    };
    Ok((leaf(alloc, query), rest))
}

#[tactic(auto, unfolding(crate::specs::Fronts::prefix_front))]
fn prefix_front(alloc: Global, line: &[u8]) -> ReadOn<'_, Front>
    ensures { ReadsOn result (prefix_front (words_of line.now)) }
{
    let ((kind, prop), rest) = names_at(alloc, line)?;
    let (text, rest) = text_at(alloc, rest)?;
    Ok((leaf(alloc, Query::Prefix { kind, prop, text }), rest))
}

#[tactic(auto, unfolding(crate::specs::Fronts::with_front))]
fn with_front(alloc: Global, line: &[u8]) -> ReadOn<'_, Front>
    ensures { ReadsOn result (with_front (words_of line.now)) }
{
    let ((kind, prop), rest) = names_at(alloc, line)?;
    Ok((leaf(alloc, Query::With { kind, prop }), rest))
}

#[tactic(auto, unfolding(crate::specs::Fronts::withlink_front))]
fn withlink_front(alloc: Global, line: &[u8]) -> ReadOn<'_, Front>
    ensures { ReadsOn result (withlink_front (words_of line.now)) }
{
    let ((kind, link), rest) = names_at(alloc, line)?;
    Ok((leaf(alloc, Query::WithLink { kind, link }), rest))
}

#[tactic(auto, unfolding(crate::specs::Fronts::linked_front))]
fn linked_front(alloc: Global, line: &[u8]) -> ReadOn<'_, Front>
    ensures { ReadsOn result (linked_front (words_of line.now)) }
{
    let ((kind, link), rest) = names_at(alloc, line)?;
    let (ent, rest) = ent_at(alloc, rest)?;
    let target = placed(&ent);
    let front = leaf_with(alloc, Query::Linked { kind, link, target }, ent)?;
    Ok((front, rest))
}

#[tactic(auto, unfolding(crate::specs::Fronts::from_front))]
fn from_front(alloc: Global, line: &[u8]) -> ReadOn<'_, Front>
    ensures { ReadsOn result (from_front (words_of line.now)) }
{
    let (ent, rest) = ent_at(alloc, line)?;
    let (link, rest) = name_at(alloc, rest)?;
    let source = placed(&ent);
    let front = leaf_with(alloc, Query::LinksOf { source, link }, ent)?;
    Ok((front, rest))
}

#[tactic(auto, unfolding(crate::specs::Fronts::targets_front))]
fn targets_front(alloc: Global, line: &[u8]) -> ReadOn<'_, Front>
    ensures { ReadsOn result (targets_front (words_of line.now)) }
{
    let (link, rest) = name_at(alloc, line)?;
    Ok((Front::Over(Above::Targets { link }), rest))
}

#[tactic(auto, unfolding(crate::specs::Fronts::sort_front))]
fn sort_front(alloc: Global, line: &[u8]) -> ReadOn<'_, Front>
    ensures { ReadsOn result (sort_front (words_of line.now)) }
{
    let (prop, rest) = name_at(alloc, line)?;
    let (direction, rest) = direction_at(rest)?;
    Ok((Front::Over(Above::Sort { prop, direction }), rest))
}

#[tactic(auto, unfolding(crate::specs::Fronts::skip_front))]
fn skip_front(line: &[u8]) -> ReadOn<'_, Front>
    ensures { ReadsOn result (skip_front (words_of line.now)) }
{
    let (count, rest) = count_at(line)?;
    Ok((Front::Over(Above::Skip { count }), rest))
}

#[tactic(auto, unfolding(crate::specs::Fronts::take_front))]
fn take_front(line: &[u8]) -> ReadOn<'_, Front>
    ensures { ReadsOn result (take_front (words_of line.now)) }
{
    let (count, rest) = count_at(line)?;
    Ok((Front::Over(Above::Take { count }), rest))
}

/// What a query is whose first word is this one, and what follows that.
#[tactic(auto, unfolding(crate::specs::Fronts::keyword_front))]
fn keyword_front<'a>(alloc: Global, word: &[u8], line: &'a [u8]) -> ReadOn<'a, Front>
    ensures { ReadsOn result (keyword_front word.now (words_of line.now)) }
{
    if is_word(word, b"all") {
        all_front(alloc, line)
    } else if is_word(word, b"find") {
        find_front(alloc, line)
    } else if is_word(word, b"range") {
        range_front(alloc, line)
    } else if is_word(word, b"prefix") {
        prefix_front(alloc, line)
    } else if is_word(word, b"with") {
        with_front(alloc, line)
    } else if is_word(word, b"withlink") {
        withlink_front(alloc, line)
    } else if is_word(word, b"linked") {
        linked_front(alloc, line)
    } else if is_word(word, b"from") {
        from_front(alloc, line)
    } else if is_word(word, b"union") {
        Ok((Front::Joining(Join::Union), line))
    } else if is_word(word, b"intersect") {
        Ok((Front::Joining(Join::Intersect), line))
    } else if is_word(word, b"minus") {
        Ok((Front::Joining(Join::Minus), line))
    } else if is_word(word, b"targets") {
        targets_front(alloc, line)
    } else if is_word(word, b"sort") {
        sort_front(alloc, line)
    } else if is_word(word, b"skip") {
        skip_front(line)
    } else if is_word(word, b"take") {
        take_front(line)
    } else {
        Err(Unread::Bad)
    }
}

/// What the first words of a line say that a query is, and what follows them.
#[tactic(auto, unfolding(crate::specs::Fronts::front_of))]
pub fn read_front(alloc: Global, line: &[u8]) -> ReadOn<'_, Front>
    ensures { ReadsOn result (front_of (words_of line.now)) }
{
    let (word, rest) = next_word(line)?;
    keyword_front(alloc, word, rest)
}
