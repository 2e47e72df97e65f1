//! What a statement says, from the words behind its first one.
//!
//! `line.rt` hands in what is left of a line, one function for each form. Nothing here knows of the lines before it. The
//! rules stand in `specs/Statements.antt`, one definition for each function, in the same steps.
ghost use Rattle.std.specs.Prelude.{◌≡◌, IfOk, Some};
ghost use Rattle.xod_lang.specs.Statements.{alone, are_tries, begin_form, count_form, delete_form, do_form, ent_and_name, form_of, link_ends, link_form, mode_of, new_form, only_ent, private_form, query_form, set_form, setlink_form, show_form, unlink_form, unlinkall_form, unset_form};
ghost use Rattle.xod_words.specs.Reads.{Reads};
ghost use Rattle.xod_words.specs.Words.{words_of};

use crate::script::Form;
use sqlite_items::Boxed;
use std::alloc::Global;
use xod_base::{MOST_TRIES, Memory, Mode, Text};
use xod_words::{
    Draft, Ent, Unread, is_word, next_word, no_word, one_word, read_count, read_draft, read_ent,
    read_name, read_value, read_variable, three_words, two_words,
};

/// A form that is a keyword alone.
#[tactic(auto, unfolding(crate::specs::Statements::alone))]
fn alone(form: Form, rest: &[u8]) -> Result<Form, Unread>
    ensures { Reads result (alone form (words_of rest.now)) }
{
    no_word(rest)?;
    Ok(form)
}

#[tactic(auto, unfolding(crate::specs::Statements::mode_of))]
fn mode_of(word: &[u8]) -> Result<Mode, Unread>
    ensures { Reads result (mode_of word.now) }
{
    if is_word(word, b"read") {
        Ok(Mode::ReadOnly)
    } else if is_word(word, b"exclusive") {
        Ok(Mode::Exclusive)
    } else {
        Err(Unread::Bad)
    }
}

#[tactic(auto, unfolding(crate::specs::Statements::begin_form))]
fn begin_form(rest: &[u8]) -> Result<Form, Unread>
    ensures { Reads result (begin_form (words_of rest.now)) }
{
    match next_word(rest) {
        Err(_) => Ok(Form::Begin {
            mode: Mode::Ordinary,
        }),
        Ok((word, more)) => {
            no_word(more)?;
            let mode = mode_of(word)?;
            Ok(Form::Begin { mode })
        }
    }
}

fn are_tries(count: u32) -> bool
    ensures { result ≡ are_tries count }
{
    1 <= count && count <= MOST_TRIES
}

#[tactic(auto, unfolding(crate::specs::Statements::do_form))]
fn do_form(rest: &[u8]) -> Result<Form, Unread>
    ensures { Reads result (do_form (words_of rest.now)) }
{
    let word = one_word(rest)?;
    let tries = read_count(word)?;
    if are_tries(tries) {
        Ok(Form::Do { tries })
    } else {
        Err(Unread::Bad)
    }
}

#[tactic(auto, unfolding(crate::specs::Statements::new_form))]
fn new_form(alloc: Global, rest: &[u8]) -> Result<Form, Unread>
    ensures { Reads result (new_form (words_of rest.now)) }
{
    let (first, second, third) = three_words(rest)?;
    let kind = read_name(alloc, first)?;
    let var = read_variable(alloc, third)?;
    if is_word(second, b"as") {
        Ok(Form::New { kind, var })
    } else {
        Err(Unread::Bad)
    }
}

/// The entity of the one word that there is.
#[tactic(auto, unfolding(crate::specs::Statements::only_ent))]
fn only_ent(alloc: Global, rest: &[u8]) -> Result<Ent, Unread>
    ensures { Reads result (only_ent (words_of rest.now)) }
{
    let word = one_word(rest)?;
    read_ent(alloc, word)
}

#[tactic(auto, unfolding(crate::specs::Statements::delete_form))]
fn delete_form(alloc: Global, rest: &[u8]) -> Result<Form, Unread>
    ensures { Reads result (delete_form (words_of rest.now)) }
{
    let ent = only_ent(alloc, rest)?;
    Ok(Form::Delete { ent })
}

#[tactic(auto, unfolding(crate::specs::Statements::set_form))]
fn set_form(alloc: Global, rest: &[u8]) -> Result<Form, Unread>
    ensures { Reads result (set_form (words_of rest.now)) }
{
    let (first, second, third) = three_words(rest)?;
    let ent = read_ent(alloc, first)?;
    let prop = read_name(alloc, second)?;
    let value = read_value(alloc, third)?;
    Ok(Form::Set { ent, prop, value })
}

/// An entity and a name, and no more.
#[tactic(auto, unfolding(crate::specs::Statements::ent_and_name))]
fn ent_and_name(alloc: Global, rest: &[u8]) -> Result<(Ent, Text), Unread>
    ensures { Reads result (ent_and_name (words_of rest.now)) }
{
    let (first, second) = two_words(rest)?;
    let ent = read_ent(alloc, first)?;
    let name = read_name(alloc, second)?;
    Ok((ent, name))
}

#[tactic(auto, unfolding(crate::specs::Statements::unset_form))]
fn unset_form(alloc: Global, rest: &[u8]) -> Result<Form, Unread>
    ensures { Reads result (unset_form (words_of rest.now)) }
{
    let (ent, prop) = ent_and_name(alloc, rest)?;
    Ok(Form::Unset { ent, prop })
}

/// An entity, a name and an entity, and no more.
#[tactic(auto, unfolding(crate::specs::Statements::link_ends))]
fn link_ends(alloc: Global, rest: &[u8]) -> Result<(Ent, Text, Ent), Unread>
    ensures { Reads result (link_ends (words_of rest.now)) }
{
    let (first, second, third) = three_words(rest)?;
    let source = read_ent(alloc, first)?;
    let link = read_name(alloc, second)?;
    let target = read_ent(alloc, third)?;
    Ok((source, link, target))
}

#[tactic(auto, unfolding(crate::specs::Statements::link_form))]
fn link_form(alloc: Global, rest: &[u8]) -> Result<Form, Unread>
    ensures { Reads result (link_form (words_of rest.now)) }
{
    let (source, link, target) = link_ends(alloc, rest)?;
    Ok(Form::Link {
        source,
        link,
        target,
    })
}

#[tactic(auto, unfolding(crate::specs::Statements::setlink_form))]
fn setlink_form(alloc: Global, rest: &[u8]) -> Result<Form, Unread>
    ensures { Reads result (setlink_form (words_of rest.now)) }
{
    let (source, link, target) = link_ends(alloc, rest)?;
    Ok(Form::SetLink {
        source,
        link,
        target,
    })
}

#[tactic(auto, unfolding(crate::specs::Statements::unlink_form))]
fn unlink_form(alloc: Global, rest: &[u8]) -> Result<Form, Unread>
    ensures { Reads result (unlink_form (words_of rest.now)) }
{
    let (source, link, target) = link_ends(alloc, rest)?;
    Ok(Form::Unlink {
        source,
        link,
        target,
    })
}

#[tactic(auto, unfolding(crate::specs::Statements::unlinkall_form))]
fn unlinkall_form(alloc: Global, rest: &[u8]) -> Result<Form, Unread>
    ensures { Reads result (unlinkall_form (words_of rest.now)) }
{
    let (source, link) = ent_and_name(alloc, rest)?;
    Ok(Form::UnlinkAll { source, link })
}

#[tactic(auto, unfolding(crate::specs::Statements::show_form))]
fn show_form(alloc: Global, rest: &[u8]) -> Result<Form, Unread>
    ensures { Reads result (show_form (words_of rest.now)) }
{
    let ent = only_ent(alloc, rest)?;
    Ok(Form::Show { ent })
}

/// A draft in a box.
fn boxed(alloc: Global, draft: Draft) -> Result<Boxed<Draft>, Memory>
    ensures { IfOk result (λ boxed. boxed ≡ draft) }
{
    Ok(Boxed::new(alloc, draft)?)
}

#[tactic(auto, unfolding(crate::specs::Statements::query_form))]
fn query_form(alloc: Global, rest: &[u8]) -> Result<Form, Unread>
    ensures { Reads result (query_form (words_of rest.now)) }
{
    let draft = read_draft(alloc, rest)?;
    let draft = boxed(alloc, draft)?;
    Ok(Form::Query { draft })
}

#[tactic(auto, unfolding(crate::specs::Statements::count_form))]
fn count_form(alloc: Global, rest: &[u8]) -> Result<Form, Unread>
    ensures { Reads result (count_form (words_of rest.now)) }
{
    let draft = read_draft(alloc, rest)?;
    let draft = boxed(alloc, draft)?;
    Ok(Form::Count { draft })
}

/// An act, or a form that reads.
#[tactic(auto, unfolding(crate::specs::Statements::private_form))]
fn private_form(alloc: Global, word: &[u8], rest: &[u8]) -> Result<Form, Unread>
    ensures { Reads result (private_form word.now (words_of rest.now)) }
{
    if is_word(word, b"new") {
        new_form(alloc, rest)
    } else if is_word(word, b"delete") {
        delete_form(alloc, rest)
    } else if is_word(word, b"set") {
        set_form(alloc, rest)
    } else if is_word(word, b"unset") {
        unset_form(alloc, rest)
    } else if is_word(word, b"link") {
        link_form(alloc, rest)
    } else if is_word(word, b"setlink") {
        setlink_form(alloc, rest)
    } else if is_word(word, b"unlink") {
        unlink_form(alloc, rest)
    } else if is_word(word, b"unlinkall") {
        unlinkall_form(alloc, rest)
    } else if is_word(word, b"show") {
        show_form(alloc, rest)
    } else if is_word(word, b"query") {
        query_form(alloc, rest)
    } else if is_word(word, b"count") {
        count_form(alloc, rest)
    } else {
        Err(Unread::Bad)
    }
}

/// What a statement says that begins with this word.
#[tactic(auto, unfolding(crate::specs::Statements::form_of))]
pub fn read_form(alloc: Global, word: &[u8], rest: &[u8]) -> Result<Form, Unread>
    ensures { Reads result (form_of word.now (words_of rest.now)) }
{
    if is_word(word, b"begin") {
        begin_form(rest)
    } else if is_word(word, b"flush") {
        alone(Form::Flush, rest)
    } else if is_word(word, b"revert") {
        alone(Form::Revert, rest)
    } else if is_word(word, b"end") {
        alone(Form::End, rest)
    } else if is_word(word, b"commit") {
        alone(Form::Commit, rest)
    } else if is_word(word, b"sync") {
        alone(Form::Sync, rest)
    } else if is_word(word, b"do") {
        do_form(rest)
    } else if is_word(word, b"done") {
        alone(Form::Done, rest)
    } else {
        private_form(alloc, word, rest)
    }
}
