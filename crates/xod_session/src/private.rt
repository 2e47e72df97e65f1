//! Private statements, answered over any open transaction.
//!
//! A statement that names an unset variable is refused before all else. What each is answered stands in
//! `specs/Private.antt`.
ghost use Rattle.std.specs.Prelude.{◌≡◌, ◌∷◌, [], Option, None, Some, Ok, Err, IfErr, IfOk, IsTrue, OnOk, OnErr, is_some, option_map, if◌then◌else◌};
ghost use Rattle.xod_base.specs.Rows.{has_name_length};
ghost use Rattle.xod_base.specs.declared.query.Act.TheVariants as act;
ghost use Rattle.xod_base.specs.declared.answer.Reply.TheVariants as reply;
ghost use Rattle.xod_journal.specs.Changes.{has_names};
ghost use Rattle.xod_base.specs.Queries.{is_named};
ghost use Rattle.xod_journal.specs.Locals.{is_outside};
ghost use Rattle.xod_journal.specs.Shows.{shown_of};
ghost use Rattle.xod_session.specs.Answers.{Answers, IsCauseOf, IsRefusal, cause_in};
ghost use Rattle.xod_session.specs.Dialogues.{HasStopRoom, form_printed, line_printed, looked_up_printed, printed_of, spoken};
ghost use Rattle.xod_session.specs.Private.{act_reply as reply_of_act, acted, counted, found, made, outcome_with, plain, show_reply as reply_of_show};
ghost use Rattle.xod_session.specs.Scripts.{is_named_form};
ghost use Rattle.xod_session.specs.Turns.{is_private as is_private_form};
ghost use Rattle.xod_session.specs.Variables.{first_unset as unset_of, id_at, id_in as id_of_word, name_in, words_in, words_of};

use crate::dialogue::Dialogue;
use crate::filling::{NO_ID, filled};
use crate::variables::Variables;
use std::alloc::Global;
use xod_base::{
    Act, ActAnswer, Answer, Cause, EntityId, Memory, Query, Reply, Shown, StmtError, Text, Value,
};
use xod_journal::Local;
use xod_lang::{Draft, Ent, Form, Statement, VarUse};

/// The name of an entity word that is an unset variable.
fn unset<'a>(variables: &Variables, ent: &'a Ent) -> Option<&'a Text>
    ensures { option_map (λ name. name.now) result
        ≡ (if is_some (id_at variables.now ent.now) then None else Some (name_in ent.now)) }
{
    match ent {
        Ent::Id(_) => None,
        Ent::Var(name) => match variables.get(name) {
            Some(_) => None,
            None => Some(name),
        },
    }
}

/// The first unset one of two entity words.
fn unset_of_two<'a>(variables: &Variables, first: &'a Ent, second: &'a Ent) -> Option<&'a Text>
    ensures { option_map (λ name. name.now) result
        ≡ unset_of variables.now (first.now ∷ second.now ∷ []) }
{
    match unset(variables, first) {
        Some(name) => Some(name),
        None => unset(variables, second),
    }
}

/// The first unset one of the variables of a query.
fn unset_of_uses<'a>(variables: &Variables, uses: &'a [VarUse]) -> Option<&'a Text>
    ensures { option_map (λ name. name.now) result ≡ unset_of variables.now (words_in uses.now) }
{
    for one in uses {
        if variables.get(&one.var).is_none() {
            return Some(&one.var);
        }
    }
    None
}

/// The first unset variable of a statement.
fn first_unset<'a>(variables: &Variables, form: &'a Form) -> Option<&'a Text>
    ensures { option_map (λ name. name.now) result ≡ unset_of variables.now (words_of form.now) }
{
    match form {
        Form::Delete { ent } => unset(variables, ent),
        Form::Set { ent, .. } => unset(variables, ent),
        Form::Unset { ent, .. } => unset(variables, ent),
        Form::Link { source, target, .. } => unset_of_two(variables, source, target),
        Form::SetLink { source, target, .. } => unset_of_two(variables, source, target),
        Form::Unlink { source, target, .. } => unset_of_two(variables, source, target),
        Form::UnlinkAll { source, .. } => unset(variables, source),
        Form::Show { ent } => unset(variables, ent),
        Form::Query { draft } => unset_of_uses(variables, draft.get().vars.as_slice()),
        Form::Count { draft } => unset_of_uses(variables, draft.get().vars.as_slice()),
        _ => None,
    }
}

/// The id of an entity word that is no unset variable.
fn id_in(variables: &Variables, ent: &Ent) -> EntityId
    ensures { result ≡ id_of_word variables.now ent.now }
{
    match ent {
        Ent::Id(id) => *id,
        Ent::Var(name) => variables.get(name).unwrap_or(NO_ID),
    }
}

/// Why an error stops a session, and `None` where it is a refusal.
fn cause_of(error: StmtError) -> Option<Cause>
    ensures { result ≡ cause_in error }
{
    match error {
        StmtError::Device => Some(Cause::Device),
        StmtError::Damaged(_) => Some(Cause::Damaged),
        StmtError::Memory => Some(Cause::Memory),
        StmtError::NoEntity { .. } => None,
        StmtError::ReadOnly => None,
        StmtError::TooMany { .. } => None,
        StmtError::IdsSpent { .. } => None,
        StmtError::TextTooLong { .. } => None,
    }
}

/// An answer or a refusal; what stops the session is the error.
fn settled<T>(answer: Result<T, StmtError>) -> Result<Result<T, StmtError>, Cause>
where
    T: Drop,
    ensures same { IfOk result (λ kept. kept ≡ answer) }
    ensures refusal { OnOk result (IsRefusal answer) }
    ensures cause { IfErr result (IsCauseOf answer) }
{
    let error = match answer {
        Ok(value) => return Ok(Ok(value)),
        Err(error) => error,
    };
    match cause_of(error) {
        Some(cause) => Err(cause),
        None => Ok(Err(error)),
    }
}

/// The reply of an act.
fn act_reply(outcome: &Result<ActAnswer, StmtError>) -> Reply
    ensures { result ≡ reply_of_act outcome.now }
{
    match outcome {
        Ok(answer) => Reply::Acted(*answer),
        Err(error) => Reply::Refused(*error),
    }
}

/// The reply of a `show`.
fn show_reply(outcome: Result<Shown, StmtError>) -> Reply
    ensures { result ≡ reply_of_show outcome }
{
    match outcome {
        Ok(shown) => Reply::Shown(shown),
        Err(error) => Reply::Refused(error),
    }
}

/// Answers an act.
fn answer_act<O: Local>(
    said: &mut Dialogue,
    txn: &mut O,
    alloc: Global,
    line: u32,
    act: &Act,
) -> Result<(), Cause>
    requires { IsTrue (has_names act.now) }
    ensures { Answers O.tells O.txn O.faults
        (spoken line (λ vars there. acted vars there act.now))
        said.old said.new txn.old txn.new result }
{
    let outcome = settled(txn.act(alloc, act))?;
    said.reply(alloc, line, &act_reply(&outcome))?;
    Ok(())
}

/// Answers a `new`.
fn answer_new<O: Local>(
    said: &mut Dialogue,
    txn: &mut O,
    alloc: Global,
    line: u32,
    kind: &Text,
    var: &Text,
) -> Result<(), Cause>
    requires { IsTrue (has_name_length kind.now) }
    ensures { Answers O.tells O.txn O.faults
        (spoken line (λ vars there. made vars there kind.now var.now))
        said.old said.new txn.old txn.new result }
{
    let kind = kind.try_clone(alloc)?;
    let outcome = settled(txn.act(alloc, &Act::New { kind }))?;
    said.reply_made(alloc, line, var, &act_reply(&outcome), &outcome)?;
    Ok(())
}

/// Answers a `show`.
fn answer_show<O: Local>(
    said: &mut Dialogue,
    txn: &mut O,
    alloc: Global,
    line: u32,
    id: EntityId,
) -> Result<(), Cause>
    ensures { Answers O.tells O.txn O.faults
        (spoken line (λ vars there. plain vars there (reply_of_show (shown_of there.rows id))))
        said.old said.new txn.old txn.new result }
{
    let outcome = settled(txn.show(alloc, id))?;
    said.reply(alloc, line, &show_reply(outcome))?;
    Ok(())
}

/// What a query found; what did not answer it is the error.
fn answered(answer: Result<Answer, StmtError>) -> Result<Answer, Cause>
    requires { IfErr answer (λ error. IsTrue (is_outside error)) }
    ensures found { IfOk result (λ found. answer ≡ Ok found) }
    ensures cause { IfErr result (IsCauseOf answer) }
{
    let error = match answer {
        Ok(found) => return Ok(found),
        Err(error) => error,
    };
    match cause_of(error) {
        Some(cause) => Err(cause),
        None => unreachable!(),
    }
}

/// Puts the line of a query, a hit or a miss.
fn put_found(
    said: &mut Dialogue,
    alloc: Global,
    line: u32,
    reply: &Reply,
    query: Query,
    hit: bool,
) -> Result<(), Memory>
    ensures ok { OnOk result (printed_of said.new
        ≡ looked_up_printed (line_printed (printed_of said.old) line reply.now) query hit) }
    ensures err { OnErr result (printed_of said.new ≡ printed_of said.old) }
    ensures room { HasStopRoom said.old → HasStopRoom said.new }
{
    if hit {
        said.reply_hit(alloc, line, reply)
    } else {
        said.reply_missed(alloc, line, reply, query)
    }
}

/// Answers a `query`.
fn answer_query<O: Local>(
    said: &mut Dialogue,
    txn: &mut O,
    alloc: Global,
    line: u32,
    query: Query,
) -> Result<(), Cause>
    requires { IsTrue (is_named query) }
    ensures { Answers O.tells O.txn O.faults
        (spoken line (λ vars there. found vars there query))
        said.old said.new txn.old txn.new result }
{
    let Answer { ids, hit } = answered(txn.query(alloc, &query))?;
    put_found(said, alloc, line, &Reply::Ids(ids), query, hit)?;
    Ok(())
}

/// Answers a `count`.
fn answer_count<O: Local>(
    said: &mut Dialogue,
    txn: &mut O,
    alloc: Global,
    line: u32,
    query: Query,
) -> Result<(), Cause>
    requires { IsTrue (is_named query) }
    ensures { Answers O.tells O.txn O.faults
        (spoken line (λ vars there. counted vars there query))
        said.old said.new txn.old txn.new result }
{
    let Answer { ids, hit } = answered(txn.query(alloc, &query))?;
    let number = ids.len() as u64;
    put_found(said, alloc, line, &Reply::Count { number }, query, hit)?;
    Ok(())
}

/// Answers a private statement all of whose variables are set.
fn answer_set<O: Local>(
    said: &mut Dialogue,
    txn: &mut O,
    alloc: Global,
    line: u32,
    form: &Form,
) -> Result<(), Cause>
    requires private { IsTrue (is_private_form form.now) }
    requires named { IsTrue (is_named_form form.now) }
    ensures { Answers O.tells O.txn O.faults
        (spoken line (λ vars there. outcome_with vars there form.now))
        said.old said.new txn.old txn.new result }
{
    let vars = &said.variables;
    match form {
        Form::New { kind, var } => answer_new(said, txn, alloc, line, kind, var),
        Form::Show { ent } => {
            let id = id_in(vars, ent);
            answer_show(said, txn, alloc, line, id)
        }
        Form::Query { draft } => {
            let query = filled(alloc, vars, draft.get())?;
            answer_query(said, txn, alloc, line, query)
        }
        Form::Count { draft } => {
            let query = filled(alloc, vars, draft.get())?;
            answer_count(said, txn, alloc, line, query)
        }
        Form::Delete { ent } => {
            let id = id_in(vars, ent);
            answer_act(said, txn, alloc, line, &Act::Delete { id })
        }
        Form::Set { ent, prop, value } => {
            let act = Act::Set {
                id: id_in(vars, ent),
                prop: prop.try_clone(alloc)?,
                value: value.try_clone(alloc)?,
            };
            answer_act(said, txn, alloc, line, &act)
        }
        Form::Unset { ent, prop } => {
            let id = id_in(vars, ent);
            let prop = prop.try_clone(alloc)?;
            answer_act(said, txn, alloc, line, &Act::Unset { id, prop })
        }
        Form::Link {
            source,
            link,
            target,
        } => {
            let act = Act::Link {
                source: id_in(vars, source),
                link: link.try_clone(alloc)?,
                target: id_in(vars, target),
            };
            answer_act(said, txn, alloc, line, &act)
        }
        Form::SetLink {
            source,
            link,
            target,
        } => {
            let act = Act::SetLink {
                source: id_in(vars, source),
                link: link.try_clone(alloc)?,
                target: id_in(vars, target),
            };
            answer_act(said, txn, alloc, line, &act)
        }
        Form::Unlink {
            source,
            link,
            target,
        } => {
            let act = Act::Unlink {
                source: id_in(vars, source),
                link: link.try_clone(alloc)?,
                target: id_in(vars, target),
            };
            answer_act(said, txn, alloc, line, &act)
        }
        Form::UnlinkAll { source, link } => {
            let source = id_in(vars, source);
            let link = link.try_clone(alloc)?;
            answer_act(said, txn, alloc, line, &Act::UnlinkAll { source, link })
        }
        _ => unreachable!(),
    }
}

/// Answers a private statement.
pub fn answer<O: Local>(
    said: &mut Dialogue,
    txn: &mut O,
    alloc: Global,
    statement: &Statement,
) -> Result<(), Cause>
    requires private { IsTrue (is_private_form statement.now.form) }
    requires named { IsTrue (is_named_form statement.now.form) }
    ensures { Answers O.tells O.txn O.faults
        (λ printed there. form_printed printed there statement.now.line statement.now.form)
        said.old said.new txn.old txn.new result }
{
    let line = statement.line;
    match first_unset(&said.variables, &statement.form) {
        Some(name) => {
            let name = name.try_clone(alloc)?;
            said.reply(alloc, line, &Reply::Unset { name })?;
            Ok(())
        }
        None => answer_set(said, txn, alloc, line, &statement.form),
    }
}
